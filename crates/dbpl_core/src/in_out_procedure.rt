/// A procedure of InOut. Its variable Done is a module variable.
#[derive(Clone, Copy)]
pub enum InOutProcedure {
    Read,
    ReadInt,
    ReadCard,
    Write,
    WriteLn,
    WriteString,
    WriteInt,
    WriteCard,
}
