// Worked settlements.
ghost use Rattle.tariff.specs.Worked.{Worked};

// The definitions give the worked cases. The function does nothing: its contract is the statement.
pub fn worked_cases()
    ensures { Worked }
{}
