/// What is shown of a file.
#[derive(Clone, Copy)]
pub enum Topic {
    /// The tokens of each line, with their places and heads.
    Tokens,
    /// Of the whole file, that its text is that of the model which is parsed.
    Model,
    /// Why each line is no model.
    Refusals,
    /// The heads and the nesting of the model of each line.
    Trees,
    /// The parts, messages, instances and channels of the model of each line.
    Declarations,
    /// The classes of the whole file, and answers to the questions in its comments.
    Classes,
    /// Which of the first three rules each line violates.
    Families,
    /// What each call that looks for a violation says of each line.
    Rules,
    /// What the checker says of each line.
    Violations,
    /// What the checker says of each line with the rules of opening.
    Openings,
    /// The processes and the wires of the whole file.
    Net,
    /// How many processes and wires the whole file has.
    NetSize,
}

impl Topic {
    /// The topic of this name.
    pub fn named(name: &str) -> Option<Topic> {
        match name {
            "tokens" => Some(Topic::Tokens),
            "model" => Some(Topic::Model),
            "refusals" => Some(Topic::Refusals),
            "trees" => Some(Topic::Trees),
            "declarations" => Some(Topic::Declarations),
            "classes" => Some(Topic::Classes),
            "families" => Some(Topic::Families),
            "rules" => Some(Topic::Rules),
            "violations" => Some(Topic::Violations),
            "openings" => Some(Topic::Openings),
            "net" => Some(Topic::Net),
            "net_size" => Some(Topic::NetSize),
            _ => None,
        }
    }
}
