/// What is played: the script of the source, or so many commands, 1 to 20,000, that the program makes itself.
#[derive(Clone, Copy, PartialEq, Eq, Debug)]
pub enum Mode {
    Script,
    Make(u32),
}
