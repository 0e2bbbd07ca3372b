// The law of expressions as texts.
ghost use Rattle.expr_text.specs.Agreement.{Agrees};
ghost use Rattle.expr_text.specs.Reading.{expression_of};

use expr_reader::readings_agree;

/// What bytes are told goes by the grammar of expressions: for all bytes, with no memory in it.
pub fn texts_agree()
    ensures { Agrees expression_of }
{
    readings_agree();
}
