//! What a field of a request says.
/// What a field of a request says.
#[derive(Drop)]
pub enum Field<T: Drop> {
    /// No such field stands in the head.
    Absent,
    /// Its text may not stand there, or the field stands twice where it may stand once.
    Bad,
    /// Its value.
    Value(T),
}
