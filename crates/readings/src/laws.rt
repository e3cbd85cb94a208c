// What the formats come to. The functions do nothing: their contracts are the statements.
ghost use Rattle.readings.specs.Laws.{FieldsWhole, LinesWhole, ValuesDecimal};

// Cutting a file into lines and a line into fields loses no byte and adds none.
pub fn cuts_are_whole()
    ensures lines { LinesWhole }
    ensures fields { FieldsWhole }
{}

// The values of a file are numbers as the listing writes them.
pub fn values_are_decimal()
    ensures { ValuesDecimal }
{}
