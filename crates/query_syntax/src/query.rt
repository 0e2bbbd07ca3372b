// What a query says.
ghost use Rattle.std.specs.Prelude.{◌≡◌, ◌<◌, ◌++◌, ◌∷◌, [], IfOk, OnErr, OnOk, length};
ghost use Rattle.std.specs.Prelude.{slice_index_or};
ghost use Rattle.query_syntax.specs.Tree.{trees_of, what_depth, clauses_depth};
ghost use Rattle.query_syntax.specs.Views.{clause_tree};
ghost use Rattle.query_syntax.specs.Items.{require_last};
ghost use Rattle.query_syntax.specs.Matching.{has_role};

use crate::Term;
use crate::counts::Counts;
use std::alloc::Global;
use std::marker::Model;
use tuple_values::{Memory, Text, TryCopy};

/// What a clause means for the list that holds it.
#[derive(Clone, Copy)]
pub enum Role {
    /// The list matches only where the clause does.
    Required,
    /// The list matches only where the clause doesn't.
    Prohibited,
    /// Where no clause is required, the list matches only where some optional one does.
    Optional,
}

impl Role {
    ghost use Rattle.query_syntax.specs.Items.{role_beside};

    // The role of a clause that has an `AND` beside it.
    fn beside(self) -> Role
        ensures { result ≡ role_beside self }
    {
        match self {
            Role::Required | Role::Optional => Role::Required,
            Role::Prohibited => Role::Prohibited,
        }
    }
}

/// What is asked of the value of a field.
#[derive(Drop)]
pub enum Test {
    /// The value is this text, or the number that the text is.
    Word(Term),
    /// The value is a text that begins so.
    Prefix(Text),
    /// The field is there.
    Present,
    /// The value lies between the bounds: a text by its bytes, a number by its size. A bound is
    /// itself inside where its flag says so; no bound leaves that side open.
    Range {
        low: Option<Term>,
        low_in: bool,
        high: Option<Term>,
        high_in: bool,
    },
}

/// What a clause asks for: every document, a field with a test, or a list of clauses.
#[cycle(clauses)]
#[derive(Drop)]
pub enum What {
    Everything,
    Field { name: Text, test: Test },
    Nested(Clauses),
}

/// A part of a query, with its role in the list that holds it.
#[cycle(clauses)]
#[derive(Drop)]
pub struct Clause {
    pub role: Role,
    pub what: What,
}

/// Clauses in their order, of which those of each role are counted once. A contract sees the list of
/// their trees.
#[cycle(clauses)]
#[derive(Drop)]
pub struct Clauses {
    items: Vec<Clause>,
    counts: Counts,
}

/// A query, by its clauses.
pub struct Query {
    pub clauses: Clauses,
}

impl Drop for Query {
    fn drop(self) {
        let Query { clauses } = self;
        drop(clauses);
    }
}

impl Model for Clauses {
    ghost use Rattle.std.specs.Prelude.{List};
    ghost use Rattle.query_syntax.specs.Tree.{ClauseTree, clauses_depth};

    ghost Value = { List ClauseTree };

    ghost use Rattle.query_syntax.specs.Codes.{clauses_code};

    ghost coded = { clauses_code };

    ghost use Rattle.query_syntax.specs.Views.{clause_trees};

    ghost view = { λ c. clause_trees c.items.items };

    ghost use Rattle.query_syntax.specs.Counts.{AreCounted};

    ghost invariant = { λ c. AreCounted c.counts c.items.items };

    ghost size = { clauses_depth };

    ghost use Rattle.query_syntax.specs.Falls.{clauses_fall};

    ghost size_decreases = { λ a h. clauses_fall a.items.items };
}

impl Clauses {
    /// The list of no clause. No text says it; as a query it matches nothing.
    pub fn new(alloc: Global) -> Clauses
        ensures { result ≡ [] }
    {
        Clauses {
            items: Vec::new(alloc),
            counts: Counts::none(),
        }
    }

    /// Adds a clause at the end. After an `Err` the clause is dropped.
    pub fn push(&mut self, clause: Clause) -> Result<(), Memory>
        ensures ok { OnOk result (self.new ≡ self.old ++ clause_tree clause ∷ []) }
        ensures err { OnErr result (self.new ≡ self.old) }
    {
        let role = clause.role;
        self.items.push(clause)?;
        self.counts.add(role);
        Ok(())
    }

    /// How many clauses there are.
    pub fn count(&self) -> u64
        ensures { result ≡ length self.now }
    {
        self.items.len() as u64
    }

    /// The k-th clause, counted from 0.
    pub fn get(&self, k: u64) -> &Clause
        requires { k < length self.now }
        ensures value { (d : _) → clause_tree result.now ≡ slice_index_or self.now k d }
        ensures smaller { what_depth (clause_tree result.now).what < clauses_depth self.now }
    {
        &self.items[k as usize]
    }

    // Whether some clause has the role.
    pub(crate) fn has(&self, role: Role) -> bool
        ensures { result ≡ has_role (trees_of self.now) role }
    {
        self.counts.of(role) > 0
    }
}

/// The last clause has an `AND` beside it.
pub fn require_last(clauses: &mut Clauses) -> Result<(), Memory>
    ensures { OnOk result (clauses.new ≡ require_last clauses.old) }
{
    if let Some(clause) = clauses.items.pop() {
        clauses.counts.take(clause.role);
        let role = clause.role.beside();
        let what = clause.what;
        clauses.push(Clause { role, what })?;
    }
    Ok(())
}

/// The same text, or none.
pub fn copy_option(text: &Option<Text>, alloc: Global) -> Result<Option<Text>, Memory>
    ensures { IfOk result (λ copy. copy ≡ text.now) }
{
    match text {
        None => Ok(None),
        Some(text) => Ok(Some(text.copy(alloc)?)),
    }
}

// The same bound, or none.
fn copy_bound(bound: &Option<Term>, alloc: Global) -> Result<Option<Term>, Memory>
    ensures { IfOk result (λ copy. copy ≡ bound.now) }
{
    match bound {
        None => Ok(None),
        Some(bound) => Ok(Some(bound.copy(alloc)?)),
    }
}

impl TryCopy for Test {
    fn copy(&self, alloc: Global) -> Result<Self, Memory> {
        match self {
            Test::Word(word) => Ok(Test::Word(word.copy(alloc)?)),
            Test::Prefix(word) => Ok(Test::Prefix(word.copy(alloc)?)),
            Test::Present => Ok(Test::Present),
            Test::Range {
                low,
                low_in,
                high,
                high_in,
            } => {
                let low = copy_bound(low, alloc)?;
                let high = copy_bound(high, alloc)?;
                Ok(Test::Range {
                    low,
                    low_in: *low_in,
                    high,
                    high_in: *high_in,
                })
            }
        }
    }
}

impl What {
    /// The same thing asked for.
    #[cycle(copying)]
    pub fn copy(&self, alloc: Global) -> Result<What, Memory>
        ensures { IfOk result (λ copy. copy ≡ self.now) }
    {
        match self {
            What::Everything => Ok(What::Everything),
            What::Field { name, test } => {
                let name = name.copy(alloc)?;
                let test = test.copy(alloc)?;
                Ok(What::Field { name, test })
            }
            What::Nested(clauses) => Ok(What::Nested(clauses.copy(alloc)?)),
        }
    }
}

impl Clause {
    /// The same clause.
    #[cycle(copying)]
    pub fn copy(&self, alloc: Global) -> Result<Clause, Memory>
        ensures { IfOk result (λ copy. copy ≡ self.now) }
    {
        let what = self.what.copy(alloc)?;
        Ok(Clause {
            role: self.role,
            what,
        })
    }
}

impl Clauses {
    /// The same clauses.
    #[cycle(copying)]
    pub fn copy(&self, alloc: Global) -> Result<Clauses, Memory>
        ensures { IfOk result (λ copy. copy ≡ self.now) }
    {
        let mut items = Vec::new(alloc);
        for clause in &self.items {
            items.push(clause.copy(alloc)?)?;
        }
        Ok(Clauses {
            items,
            counts: self.counts,
        })
    }
}

impl TryCopy for What {
    fn copy(&self, alloc: Global) -> Result<Self, Memory> {
        What::copy(self, alloc)
    }
}

impl TryCopy for Clause {
    fn copy(&self, alloc: Global) -> Result<Self, Memory> {
        Clause::copy(self, alloc)
    }
}

impl TryCopy for Clauses {
    fn copy(&self, alloc: Global) -> Result<Self, Memory> {
        Clauses::copy(self, alloc)
    }
}

impl TryCopy for Query {
    fn copy(&self, alloc: Global) -> Result<Self, Memory> {
        let clauses = Clauses::copy(&self.clauses, alloc)?;
        Ok(Query { clauses })
    }
}
