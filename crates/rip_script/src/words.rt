ghost use Rattle.std.specs.Prelude.{◌≡◌, ◌∷◌, [], ℕ, List, IfNone, IfSome, map, string_bytes};
ghost use Rattle.rip_script.specs.Words.{AreLimits, IsForm, IsLimit, IsNumber, IsTask, RunOf, task_of};
ghost use Rattle.rip_script.specs.declared.words.RunLimits.{RunLimits as Limits};

/// How much a run may use.
#[derive(Clone, Copy, Debug, PartialEq, Eq)]
pub struct RunLimits {
    /// Nodes that are entered.
    pub fuel: u32,
    /// Cells of the heap that are ever charged.
    pub cells: u32,
    /// Units of texts that are ever charged.
    pub units: u32,
    /// How deep nodes and functions nest.
    pub depth: u32,
}

/// The limits of a run where the words name none: those of an application.
const USUAL: RunLimits = RunLimits {
    fuel: 100_000,
    cells: 20_000,
    units: 100_000,
    depth: 500,
};

/// The greatest limits that the words may name.
const GREATEST: RunLimits = RunLimits {
    fuel: 1_000_000_000,
    cells: 4_000_000_000,
    units: 4_000_000_000,
    depth: 10_000,
};

/// What the words ask for.
#[derive(Clone, Copy)]
pub enum Command<'a> {
    /// The tokens of the script in this file.
    Tokens(&'a str),
    /// The tree of the script in this file.
    Tree(&'a str),
    /// What the script in this file comes to, within these limits.
    Run(&'a str, RunLimits),
}

impl<'a> Command<'a> {
    ghost use Rattle.rip_script.specs.Words.{file_of, task_of};

    /// The name of the script's file.
    pub fn file(self) -> &'a str
        ensures { result.now ≡ file_of (task_of self.entry) }
    {
        match self {
            Command::Tokens(file) => file,
            Command::Tree(file) => file,
            Command::Run(file, _) => file,
        }
    }
}

/// The file name of the words `COMMAND FILE`, or none of other words.
fn file_of<'a>(words: &'a [String], command: &str) -> Option<&'a str>
    ensures other { IfNone result
        ((file : List ℕ) → ¬ (map string_bytes words.now ≡ command.now ∷ file ∷ [])) }
    ensures form { IfSome result
        (λ file. map string_bytes words.now ≡ command.now ∷ file.now ∷ []) }
{
    let [first, file] = words else {
        return None;
    };
    if first.as_str() != command {
        return None;
    }
    Some(file.as_str())
}

/// What the words ask for, or none of words that have no form.
pub fn command_of(words: &[String]) -> Option<Command<'_>>
    ensures other { IfNone result (¬ IsForm (map string_bytes words.now)) }
    ensures form { IfSome result
        (λ command. IsTask (map string_bytes words.now) (task_of command)) }
{
    if let Some(file) = file_of(words, "tokens") {
        return Some(Command::Tokens(file));
    }
    if let Some(file) = file_of(words, "tree") {
        return Some(Command::Tree(file));
    }
    run_of(words)
}

/// What the words `run FILE` and the limits behind them ask for, or none of other words.
fn run_of(words: &[String]) -> Option<Command<'_>>
    ensures other { IfNone result
        ((file : List ℕ) (limits : Limits) → ¬ IsTask (map string_bytes words.now)
        (RunOf file limits)) }
    ensures form { IfSome result
        (λ command. IsTask (map string_bytes words.now) (task_of command)) }
{
    let [first, file, numbers @ ..] = words else {
        return None;
    };
    if first.as_str() != "run" {
        return None;
    }
    let limits = limits_of(numbers)?;
    Some(Command::Run(file.as_str(), limits))
}

/// The limits that these words name, in the order fuel, cells, units, depth; those behind the last are the usual ones.
fn limits_of(words: &[String]) -> Option<RunLimits>
    ensures other { IfNone result
        ((limits : Limits) → ¬ AreLimits (map string_bytes words.now) limits) }
    ensures are { IfSome result (AreLimits (map string_bytes words.now)) }
{
    if words.len() > 4 {
        return None;
    }
    Some(RunLimits {
        fuel: limit_at(words, 0, USUAL.fuel, GREATEST.fuel)?,
        cells: limit_at(words, 1, USUAL.cells, GREATEST.cells)?,
        units: limit_at(words, 2, USUAL.units, GREATEST.units)?,
        depth: limit_at(words, 3, USUAL.depth, GREATEST.depth)?,
    })
}

/// The limit that the word at this place names; the usual one where there is no such word.
fn limit_at(words: &[String], place: usize, usual: u32, most: u32) -> Option<u32>
    ensures other { IfNone result
        ((limit : ℕ) → ¬ IsLimit (map string_bytes words.now) place usual most limit) }
    ensures is { IfSome result (IsLimit (map string_bytes words.now) place usual most) }
{
    match words.get(place) {
        Some(word) => number_of(word.as_str(), most),
        None => Some(usual),
    }
}

/// The number from 1 to the most that the word is the decimal numeral of, without a sign.
fn number_of(word: &str, most: u32) -> Option<u32>
    ensures other { IfNone result ((number : ℕ) → ¬ IsNumber word.now most number) }
    ensures is { IfSome result (IsNumber word.now most) }
{
    if word.starts_with('+') {
        return None;
    }
    match word.parse::<u32>() {
        Ok(number) if 1 <= number && number <= most => Some(number),
        _ => None,
    }
}
