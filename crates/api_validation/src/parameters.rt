//! The parameters of a call, and the refusal of a bad one. They are read in the crate `params`.

ghost use Rattle.api_types.specs.Profiles.{is_discovered};
ghost use Rattle.api_types.specs.Served as types;
ghost use Rattle.params.specs.Lenient.{values_read};
ghost use Rattle.params.specs.Query.{pairs_in};
ghost use Rattle.params.specs.Views as params;
ghost use Rattle.params.specs.Views.{values_of};
ghost use Rattle.api_validation.specs.Parameters.{OthersAreReadByWords, WordsAreReadOnEach, bad_parameter, parameters_for};
ghost use Rattle.api_request.specs.Views.{Returns, Refuses};

use api_request::{CallError, Reason};
use api_types::Served;
use params::{Asked, BAD_MANAGER, Parameter, Params, ParamsFault};
use std::alloc::Global;

/// The refusal of a parameter at fault.
fn bad_parameter(alloc: Global, parameter: Parameter) -> CallError
    ensures { Refuses result (bad_parameter parameter) }
{
    match parameter {
        Parameter::FieldManager => CallError::refused_for(alloc, Reason::Invalid, BAD_MANAGER),
        other => {
            let message = ParamsFault::Bad(other).to_string(alloc);
            CallError::reported(alloc, Reason::BadRequest, message)
        }
    }
}

/// The parameters of a query, as they are read of the type.
fn read_for(
    alloc: Global,
    served: &Served,
    asked: Asked,
    query: &[u8],
) -> Result<Params, ParamsFault>
    ensures { params.Returns values_of result (values_read (is_discovered (types.served served.now).profile) asked (pairs_in query.now)) }
{
    if served.profile.is_discovered() {
        Params::read_leniently(alloc, asked, query)
    } else {
        Params::read(alloc, asked, query)
    }
}

/// The parameters of a call on a type; of one that clients discover, the query is read leniently.
pub fn read_parameters(
    alloc: Global,
    served: &Served,
    asked: Asked,
    query: &[u8],
) -> Result<Params, CallError>
    ensures { Returns values_of result (parameters_for (types.served served.now) asked query.now) }
{
    match read_for(alloc, served, asked, query) {
        Ok(params) => Ok(params),
        Err(ParamsFault::Bad(parameter)) => Err(bad_parameter(alloc, parameter)),
        Err(ParamsFault::Memory) => Err(CallError::Memory),
    }
}

/// Of a type that clients don't discover a query is read word for word, and what is said so is said on each type.
pub fn words_are_read()
    ensures others { OthersAreReadByWords }
    ensures each { WordsAreReadOnEach }
{}
