// What a kernel answers.
use tuple_values::Tuple;

/// What a kernel answers when it is asked.
#[derive(Drop)]
pub enum Ask {
    /// The next tuple of its output.
    Emit(Tuple),
    /// It wants the next tuple of this input, counted from 0, or to be told that the input ended.
    Need(u32),
    /// Its output has ended.
    End,
}
