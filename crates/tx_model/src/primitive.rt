/// The primitives that have a meaning. *The TeXbook*, chapters 20 and 24.
#[derive(Clone, Copy, Debug, PartialEq, Eq)]
pub enum Primitive {
    Relax,
    Par,
    Def,
    Message,
}
