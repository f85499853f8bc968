/// How a run ended. The program's exit status is the number of the variant.
#[derive(Clone, Copy, Debug, PartialEq, Eq)]
pub enum Status {
    /// What was asked for is put.
    Done = 0,
    /// The words are of no form; the usage line is put.
    BadWords = 1,
    /// The script is refused; one line that says so is put.
    BadScript = 2,
    /// A call of files or sink failed; the run ended there.
    Outside = 4,
    /// Want of memory.
    NoMemory = 5,
}
