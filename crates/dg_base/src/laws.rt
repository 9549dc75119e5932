// What holds of all packed numbers.
ghost use Rattle.dg_base.specs.Unpacked.{IsReadBack};

/// Unpacking packed numbers gives them back.
pub fn packed_numbers_are_read_back()
    ensures { IsReadBack }
{}
