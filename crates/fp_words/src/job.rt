use sqlite_items::Items;

/// What a run is asked for. Texts are the words, as they were given.
#[derive(Drop)]
pub struct Job {
    /// The directory of the class files.
    pub dir: String,
    /// The methods where the analysed program begins, by their entity texts.
    pub roots: Items<String>,
    /// The names of the analyses, each once, in the order of the words.
    pub analyses: Items<String>,
    /// What is shown: kinds of properties, and cells as `kind=entity`, each once, in the order of the words.
    pub show: Items<String>,
    /// The number of workers, 1 to 64.
    pub workers: u32,
    /// The path of the assume file.
    pub assume: Option<String>,
    /// Whether all demanded cells are shown.
    pub all: bool,
    /// Whether each cell's line names its cycle.
    pub cycles: bool,
}

/// What the words ask for.
#[derive(Drop)]
pub enum Order {
    /// A run over the class files below a directory.
    Run(Job),
    /// A run over generated class files.
    Generate {
        seed: u32,
        classes: u32,
        workers: u32,
    },
}
