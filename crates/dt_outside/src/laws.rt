ghost use Rattle.dt_outside.specs.Laws.{SameCountRoseAtLast, OneFaultMoreIsRise, RoseInOneOfTwo, RoseOverTwo, LosingNoneIsKeeping, KeepingIsLosingNone, LossesAddUp, WholeIsPrefix, NothingIsPrefix, PrefixesAddUp, ToldWholeWhereCalm};

/// A count of faults that is the same rose only where it stands at the greatest count, and one with a fault more rose;
/// over two calls, in which it doesn't fall, it rose exactly where it rose in one of them. It does nothing: its contract
/// is the law.
pub fn counts_rise_call_by_call()
    ensures same { SameCountRoseAtLast }
    ensures fault { OneFaultMoreIsRise }
    ensures in_one { RoseInOneOfTwo }
    ensures over_two { RoseOverTwo }
{}

/// Losing no byte is keeping all, and what is lost in two calls adds up. It does nothing: its contract is the law.
pub fn losses_add_up()
    ensures none { LosingNoneIsKeeping }
    ensures kept { KeepingIsLosingNone }
    ensures sum { LossesAddUp }
{}

/// The whole text and nothing are prefixes of it, and a whole text and then a prefix of another are a prefix of the two.
/// Where the count of faults stayed, and can rise, a text that is told is told whole. It does nothing: its contract is
/// the law.
pub fn prefixes_add_up()
    ensures whole { WholeIsPrefix }
    ensures nothing { NothingIsPrefix }
    ensures sum { PrefixesAddUp }
    ensures calm { ToldWholeWhereCalm }
{}
