// Parameters of a query or of a form.
ghost use Rattle.std.specs.Prelude.{◌≡◌, ◌++◌, OnOk, IfOk};
ghost use Rattle.form_request.specs.Params.{params_of, param_of};

use crate::{Param, Params};
use form_urlencoded::{decode, raw_pairs};
use std::alloc::Global;
use tuple_values::{Memory, Text};

/// Adds the parameters of a text.
pub fn add_params(alloc: Global, params: &mut Params, text: &[u8]) -> Result<(), Memory>
    ensures { OnOk result (params.new ≡ params.old ++ params_of text.now) }
{
    let mut pairs = raw_pairs(text);
    while let Some((name, value)) = pairs.next() {
        let param = read_param(alloc, name, value)?;
        params.push(param)?;
    }
    Ok(())
}

fn read_param(alloc: Global, name: &[u8], value: &[u8]) -> Result<Param, Memory>
    ensures { IfOk result (λ param. param ≡ param_of (name.now, value.now)) }
{
    let name = decode(alloc, name)?.into_owned(alloc)?;
    let value = decode(alloc, value)?.into_owned(alloc)?;
    Ok(Param {
        name: Text::from_string(name),
        value: Text::from_string(value),
    })
}
