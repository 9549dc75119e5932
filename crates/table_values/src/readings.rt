// Rows of texts that are read as values, and of moments that are cut.
use crate::fault::Fault;
use crate::fields::{plain, quoted, word};
use dg_values::{
    DatePart, Kind, Moment, Str, Value, ValueFault, read_value, truncate, write_value,
};
use std::alloc::Global;

// `read KIND | TEXT`: what the text reads as, or that it is a bad literal.
pub(crate) fn read_row(alloc: Global, call: &str, fields: &[&str]) -> Result<String, Fault> {
    let [field] = *fields else {
        return Err(Fault::Unreadable);
    };
    let text = plain(alloc, field)?;
    match call {
        "int" => reading(alloc, Kind::Int, text.as_str()),
        "bool" => reading(alloc, Kind::Bool, text.as_str()),
        "time" => reading(alloc, Kind::Time, text.as_str()),
        "each" => each_reading(alloc, text.as_str()),
        _ => Err(Fault::Unreadable),
    }
}

// What a text reads as, for each kind.
fn each_reading(alloc: Global, text: &str) -> Result<String, Fault> {
    let default = reading(alloc, Kind::Default, text)?;
    let same = reading(alloc, Kind::Text, text)?;
    let number = reading(alloc, Kind::Int, text)?;
    let truth = reading(alloc, Kind::Bool, text)?;
    let time = reading(alloc, Kind::Time, text)?;
    let node = reading(alloc, Kind::Uid, text)?;
    Ok(format!(in alloc;
        "default {default}; text {same}; int {number}; bool {truth}; time {time}; uid {node}"
    )?)
}

fn reading(alloc: Global, kind: Kind, text: &str) -> Result<String, Fault> {
    match read_value(alloc, kind, text) {
        Ok(value) => counted(alloc, &value),
        Err(ValueFault::BadLiteral) => word(alloc, "bad literal"),
        Err(ValueFault::OutOfMemory) => Err(Fault::OutOfMemory),
    }
}

// A value, and of a moment also what it is as numbers.
fn counted(alloc: Global, value: &Value) -> Result<String, Fault> {
    let text = shown(alloc, value)?;
    match value {
        Value::Time(m) => Ok(format!(in alloc; "{text} = {} s {} ns", m.secs(), m.nanos())?),
        _ => Ok(text),
    }
}

// A value as it prints; a text between quotes.
pub(crate) fn shown(alloc: Global, value: &Value) -> Result<String, Fault> {
    let mut out = Str::from_string(String::new(alloc));
    write_value(alloc, &mut out, value)?;
    match value {
        Value::Text(_) => quoted(alloc, out.as_str()),
        _ => Ok(out.into_string()),
    }
}

// The value of a kind that a text has to read as.
pub(crate) fn value_of_text(alloc: Global, kind: Kind, text: &str) -> Result<Value, Fault> {
    match read_value(alloc, kind, text) {
        Ok(value) => Ok(value),
        Err(ValueFault::BadLiteral) => Err(Fault::Unreadable),
        Err(ValueFault::OutOfMemory) => Err(Fault::OutOfMemory),
    }
}

// `cut | TIME`: the first moments of the year, month, day and hour of a time.
pub(crate) fn cut_row(alloc: Global, fields: &[&str]) -> Result<String, Fault> {
    let [field] = *fields else {
        return Err(Fault::Unreadable);
    };
    let text = plain(alloc, field)?;
    let moment = moment_of(&value_of_text(alloc, Kind::Time, text.as_str())?)?;
    let year = first_text(alloc, moment, DatePart::Year)?;
    let month = first_text(alloc, moment, DatePart::Month)?;
    let day = first_text(alloc, moment, DatePart::Day)?;
    let hour = first_text(alloc, moment, DatePart::Hour)?;
    Ok(format!(in alloc; "year {year}, month {month}, day {day}, hour {hour}")?)
}

fn moment_of(value: &Value) -> Result<Moment, Fault> {
    match value {
        Value::Time(moment) => Ok(*moment),
        _ => Err(Fault::Unreadable),
    }
}

fn first_text(alloc: Global, moment: Moment, part: DatePart) -> Result<String, Fault> {
    shown(alloc, &Value::Time(truncate(moment, part)))
}
