// How a run ends, and what is told of it.
use crate::fields::{Answer, RowFault};
use crate::runs::ending;
use dg_node::Status;
use std::alloc::Global;

/// `status | NAME`, or `status | BadFrame | OFFSET`: the number of the process, and what stands on standard error
pub fn status(alloc: Global, said: &[&str]) -> Answer {
    let status = match said {
        [name] => status_of(name, 0)?,
        [name, offset] => status_of(name, offset.parse::<u64>()?)?,
        _ => return Err(RowFault::Unreadable),
    };
    Ok(ending(alloc, status)?)
}

fn status_of(name: &str, offset: u64) -> Result<Status, RowFault> {
    match name {
        "Done" => Ok(Status::Done),
        "ReadFault" => Ok(Status::ReadFault),
        "WriteFault" => Ok(Status::WriteFault),
        "BadWords" => Ok(Status::BadWords),
        "BadFrame" => Ok(Status::BadFrame { offset }),
        "TooLong" => Ok(Status::TooLong),
        "OutOfMemory" => Ok(Status::OutOfMemory),
        _ => Err(RowFault::Unreadable),
    }
}
