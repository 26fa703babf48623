/// The operands of an instruction, as the file holds them, each in 4 bytes.
#[derive(Clone, Copy, PartialEq, Debug, Drop)]
pub enum Operands {
    None,
    One(u32),
    Two(u32, u32),
}
