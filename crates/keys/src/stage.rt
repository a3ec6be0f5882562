// One stage of a key.
#[derive(Clone, Copy, PartialEq, Eq, Debug, Default)]
pub struct KeyStage {
    pub delay: u8,
    pub code: u8,
}

impl KeyStage {
    // A stage that rests: a cascade has seven stages, and those that a key does not use are of this kind.
    pub(crate) const AT_REST: KeyStage = KeyStage { delay: 0, code: 0 };
}
