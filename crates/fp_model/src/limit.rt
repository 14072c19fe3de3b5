ghost use Rattle.std.specs.Prelude.{◌≡◌};
ghost use Rattle.fp_model.specs.Limits.{limit_name_text};

/// What a run has a bound on.
#[derive(Clone, Copy, Debug, PartialEq, Eq)]
pub enum LimitName {
    /// The class files.
    Files,
    /// The bytes of one file.
    FileBytes,
    /// The bytes of all files.
    AllBytes,
    /// The distinct names.
    Names,
    /// The words of all frames of one method.
    FrameWords,
    /// The methods.
    Methods,
    /// The pairs of a frame word and an origin of one method.
    OriginPairs,
    /// The places of the cells.
    Places,
    /// The places that tasks use, summed over the tasks.
    Uses,
    /// The places that tasks give to, summed over the tasks.
    Gives,
}

impl LimitName {
    /// The name, as a refusal tells it.
    pub fn text(self) -> &'static str
        ensures { result.now ≡ limit_name_text self }
    {
        match self {
            LimitName::Files => "files",
            LimitName::FileBytes => "file-bytes",
            LimitName::AllBytes => "all-bytes",
            LimitName::Names => "names",
            LimitName::FrameWords => "frame-words",
            LimitName::Methods => "methods",
            LimitName::OriginPairs => "origin-pairs",
            LimitName::Places => "places",
            LimitName::Uses => "uses",
            LimitName::Gives => "gives",
        }
    }
}
