// The order of refusals.
ghost use Rattle.tariff.specs.Order.{Ascend};

// The conditions of every call stand in the order of their numbers. The function does nothing: its contract is the statement.
pub fn smallest_is_answered()
    ensures { Ascend }
{}
