// Functions that do nothing, and whose contracts are laws of the definitions.
ghost use Rattle.decimal_order.specs.Laws.{OrdersValues, ReadsOneWay, WritesWholeNumbers, LateExponentsKeepLimits};

/// The order of values is total, and so is that of number texts: turned round, a comparison answers the opposite.
///
/// It does nothing: a caller that needs the order the other way round has the law from its contract.
pub fn orders_values()
    ensures { OrdersValues }
{}

/// A number falls into its parts in one way, which a reader from left to right finds, and its value is that of its parts.
///
/// It does nothing: a caller that tells numbers by such a reader has the law from its contract.
pub fn reads_one_way()
    ensures { ReadsOneWay }
{}

/// The decimal text of a whole number below 2^64 is a number within the limits, and of that value.
///
/// It does nothing: a caller that writes such a text has the law from its contract.
pub fn writes_whole_numbers()
    ensures { WritesWholeNumbers }
{}

/// A text of at most 256 bytes in which no e stands before the last ten keeps the limits, whatever else it says.
///
/// It does nothing: a caller that looks for such an e first has the law from its contract.
pub fn late_exponents_keep_limits()
    ensures { LateExponentsKeepLimits }
{}
