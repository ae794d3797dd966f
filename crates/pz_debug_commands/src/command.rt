/// A command of a stepping session. What is read stays in the text that it stands in.
#[derive(Clone, Copy)]
pub enum Command<'a> {
    /// Tells what may happen next.
    Menu,
    /// Takes the offer of this number, from 0.
    Pick(u64),
    /// Lets time pass.
    Pass,
    /// Takes so many steps at most.
    Run(u64),
    /// Takes so many steps at most, and ends behind the first communication of a message.
    Until { message: &'a [u8], most: u64 },
    /// Takes so many steps back.
    Back(u64),
    /// Shows what a variable of a process holds.
    Show { path: &'a [u8], name: &'a [u8] },
    /// What is not understood.
    Unknown,
}

/// A command, and the number of its line.
#[derive(Clone, Copy)]
pub struct Numbered<'a> {
    pub line: u64,
    pub command: Command<'a>,
}
