ghost use Rattle.dt_script.specs.Named.{ReadHasNames, ReadHasNamedCalls, ReadHasLawfulBook};
ghost use Rattle.dt_script.specs.OneAnswer.{OneScript, OneFault, ScriptsHaveNoFault};
ghost use Rattle.dt_script.specs.Writing.{NamedLinesAreSpelled};

use dt_selectors::names_keep_their_numbers;

/// Bytes are one script, or they have one fault: never two of either, and never both. It does nothing: its contract is
/// the law.
pub fn bytes_have_one_answer()
    ensures script { OneScript }
    ensures fault { OneFault }
    ensures either { ScriptsHaveNoFault }
{
    names_keep_their_numbers();
}

/// The numbers in the edits and the calls of a script that was read are those of names, and no two names of one kind are
/// the same; a line with such numbers is one that [`write_line`](crate::write_line) takes. It does nothing: its contract is
/// the law.
pub fn scripts_read_are_named()
    ensures names { ReadHasNames }
    ensures calls { ReadHasNamedCalls }
    ensures book { ReadHasLawfulBook }
    ensures spelled { NamedLinesAreSpelled }
{
    names_keep_their_numbers();
}
