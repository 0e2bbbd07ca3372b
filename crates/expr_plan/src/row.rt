// The functions that are known, and what their rows say.

/// A function of expressions.
#[derive(Clone, Copy, PartialEq, Eq)]
pub enum Function {
    Search,
    Tuple,
    Select,
    Having,
    Sort,
    Top,
    Unique,
    Merge,
    Reduce,
    Rollup,
    InnerJoin,
    LeftOuterJoin,
    Intersect,
    Complement,
    HashJoin,
    OuterHashJoin,
    Parallel,
    Topic,
    Update,
    Commit,
    Daemon,
}

/// Each function, in the order of the table.
pub(crate) const FUNCTIONS: [Function; 21] = [
    Function::Search,
    Function::Tuple,
    Function::Select,
    Function::Having,
    Function::Sort,
    Function::Top,
    Function::Unique,
    Function::Merge,
    Function::Reduce,
    Function::Rollup,
    Function::InnerJoin,
    Function::LeftOuterJoin,
    Function::Intersect,
    Function::Complement,
    Function::HashJoin,
    Function::OuterHashJoin,
    Function::Parallel,
    Function::Topic,
    Function::Update,
    Function::Commit,
    Function::Daemon,
];

/// What the value under a key is to be.
#[derive(Clone, Copy)]
pub enum Shape {
    /// A number where it is bare and whole, else a text.
    Literal,
    /// Whatever it is, it changes nothing.
    Anything,
    /// Names of fields.
    Names,
    /// Names of fields, of which none is `*`.
    FieldNames,
    Sort,
    /// Pairs of fields.
    Pairs,
    Query,
    /// A query, whose text is kept, too.
    KeptQuery,
    /// A whole number within these limits.
    Number { low: u64, high: u64 },
    /// A whole number within these limits, of 16 bits.
    Small { low: u16, high: u16 },
    /// A text of 1 to 128 bytes.
    Id,
    /// `true` or `false`.
    Flag,
    /// `true` alone, which changes nothing.
    True,
    /// A call, which is the function's last input.
    Input,
}

/// Where an input stands among the arguments.
#[derive(Clone, Copy)]
pub enum Place {
    /// By itself.
    Alone,
    /// Under the key of the function for an input.
    UnderKey,
}

/// How many inputs a function takes.
#[derive(Clone, Copy)]
pub enum Inputs {
    Exactly(u64),
    AtLeast(u64),
}

/// The calls among the arguments of a function that are no inputs. Each function that has helpers
/// needs one.
#[derive(Clone, Copy)]
pub enum Helpers {
    Nothing,
    /// Items of `select`, which may be words and calls with a new name, too.
    Items,
    /// One condition.
    Condition,
    /// One group.
    Group,
    Metrics,
}

/// A key, and what the value under it is to be.
#[derive(Clone, Copy)]
pub struct Key(pub(crate) &'static str, pub(crate) Shape);

/// What a function takes. What has to be given stands in the order in which it is missed.
#[derive(Clone, Copy)]
pub struct Row {
    pub(crate) name: &'static str,
    pub(crate) inputs: Inputs,
    pub(crate) operands: &'static [&'static str],
    pub(crate) helpers: Helpers,
    pub(crate) mandatory: &'static [Key],
    pub(crate) optional: &'static [Key],
    /// What the value under any further key is to be; none where there is no other.
    pub(crate) others: Option<Shape>,
}
