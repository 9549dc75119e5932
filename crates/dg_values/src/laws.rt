// What holds of readings, texts and dates, whatever the value.
ghost use Rattle.std.specs.Prelude.{◌≡◌, List, ℕ, pos};
ghost use Rattle.jiff_core.specs.Calendar.{days_from_civil, IsCivilDate};
ghost use Rattle.dg_values.specs.declared.kind.DatePart.{DatePart};
ghost use Rattle.dg_values.specs.declared.kind.Kind.{Kind};
ghost use Rattle.dg_values.specs.declared.value.Value.{Value};
ghost use Rattle.dg_values.specs.Calendar.{year_of, month_of, day_of, truncated, IsFirstMoment};
ghost use Rattle.dg_values.specs.Instant.{Instant, IsInstant};
ghost use Rattle.dg_values.specs.Printing.{value_text};
ghost use Rattle.dg_values.specs.Reading.{Reads, IsOfKind, IsValue};

/// A text reads as one value of a kind at most.
pub fn readings_are_unique()
    ensures { (kind : Kind) (text : List ℕ) (a b : Value) → Reads kind text a → Reads kind text b → a ≡ b }
{}

/// What a value of a kind prints as reads, as that kind, as the value.
pub fn value_reads_back()
    ensures { (kind : Kind) (value : Value) → IsOfKind kind value → IsValue value → Reads kind (value_text value) value }
{}

/// A moment cut down lies in the same year, month, day or hour, and is the first moment there.
pub fn truncated_is_first()
    ensures { (part : DatePart) (m : Instant) → IsInstant m → IsFirstMoment part m (truncated part m) }
{}

/// The year, month and place in the month of a date's day are the date's own.
pub fn days_have_their_dates()
    ensures year { (y m d : ℕ) → IsCivilDate (pos y) m d → year_of (days_from_civil (pos y) m d) ≡ y }
    ensures month { (y m d : ℕ) → IsCivilDate (pos y) m d → month_of (days_from_civil (pos y) m d) ≡ m }
    ensures day { (y m d : ℕ) → IsCivilDate (pos y) m d → day_of (days_from_civil (pos y) m d) ≡ d }
{}
