// The source of one tuple.
ghost use Rattle.std.specs.Prelude.{◌≡◌, IsOk, IsSome, IfOk};
ghost use Rattle.expr_types.specs.Parts.{tuple_fields};
ghost use Rattle.source_streams.specs.Reads.{IsNext, told};

use expr_types::Expr;
use std::alloc::Global;
use std::marker::Model;
use tuple_values::{Memory, Tuple};

/// One tuple, and then the end. A contract sees the list of what is still to come.
pub struct TupleOnce {
    rest: Option<Tuple>,
}

impl Drop for TupleOnce {
    fn drop(self) {
        let TupleOnce { rest } = self;
        drop(rest);
    }
}

impl Model for TupleOnce {
    ghost use Rattle.std.specs.Prelude.{List, [], ◌∷◌};
    ghost use Rattle.std.specs.Option.{option_map_or};
    ghost use Rattle.tuple_values.specs.Document.{Doc};
    ghost use Rattle.tuple_values.specs.Codes.{docs_code};

    ghost Value = { List Doc };

    ghost coded = { docs_code };

    ghost view = { λ s. option_map_or (λ t. t ∷ []) s.rest [] };
}

impl TupleOnce {
    /// The source of a tuple expression.
    pub fn make(alloc: Global, tuple: &Expr) -> Result<TupleOnce, Memory>
        requires { IsSome (tuple_fields tuple.now) }
        ensures { IfOk result (λ once. once ≡ told tuple.now) }
    {
        let Expr::Tuple { fields } = tuple else {
            unreachable!();
        };
        let rest = Some(fields.copy(alloc)?);
        Ok(TupleOnce { rest })
    }

    /// The next tuple; none exactly at the end, and from then on. Takes no memory.
    pub fn read(&mut self) -> Result<Option<Tuple>, Memory>
        ensures next { IfOk result (λ next. IsNext self.old next self.new) }
        ensures ok { IsOk result }
    {
        Ok(self.rest.take())
    }
}
