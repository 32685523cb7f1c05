//! The pairs of a query, and what single parameters say. Which go together stands in `params`.

ghost use Rattle.std.specs.Prelude.{◌≡◌, [], IfOk, ⊤, option_map, string_bytes, unwrap_or};
ghost use Rattle.selector.specs.Fields.{fields_of};
ghost use Rattle.params.specs.Lenient.{is_dry_run, lenient};
ghost use Rattle.params.specs.declared.parameter.Parameter.TheVariants.{FieldSelector};
ghost use Rattle.params.specs.Query.{first_at, pairs_in, value_of};
ghost use Rattle.params.specs.Reading.{absent_in, manager_in, manager_or, match_in, number_in, selector_in, strict_in, token_in, truth_in, version_in};
ghost use Rattle.params.specs.Strictness.{first_filled_at, is_strict};
ghost use Rattle.params.specs.Views.{Returns, pairs_of, token_view};

use crate::fault::ParamsFault;
use crate::lenient::pair_meant;
use crate::parameter::Parameter;
use crate::params::{Token, VersionMatch};
use crate::texts::{is_manager, match_of, token_of, truth_of};
use names::{decimal_up_to, version_of};
use selector::{ReadError, Selector};
use std::alloc::{AllocError, Global};

/// The pairs of a query, decoded.
#[derive(Debug, Drop)]
pub(crate) struct Query {
    pairs: Vec<(String, String)>,
}

/// The first value under a name; empty where there is none.
fn first_at<'a>(pairs: &'a [(String, String)], name: &str) -> &'a str
    ensures { result.now ≡ first_at name.now (pairs_of pairs.now) }
{
    for (known, value) in pairs {
        if known.as_str() == name {
            return value.as_str();
        }
    }
    ""
}

/// The first value under a name that isn't empty; empty where there is none.
fn first_filled_at<'a>(pairs: &'a [(String, String)], name: &str) -> &'a str
    ensures { result.now ≡ first_filled_at name.now (pairs_of pairs.now) }
{
    for (known, value) in pairs {
        if known.as_str() == name && !value.is_empty() {
            return value.as_str();
        }
    }
    ""
}

fn pairs_in(alloc: Global, query: &[u8]) -> Result<Vec<(String, String)>, AllocError>
    ensures { IfOk result (λ pairs. pairs_of pairs.items ≡ pairs_in query.now) }
{
    let mut pairs = Vec::new(alloc);
    for pair in form_urlencoded::parse(alloc, query).into_owned() {
        pairs.push(pair?)?;
    }
    Ok(pairs)
}

/// The pairs that are meant by these.
fn lenient(alloc: Global, pairs: Vec<(String, String)>) -> Result<Vec<(String, String)>, AllocError>
    ensures { IfOk result (λ meant. pairs_of meant.items ≡ lenient (pairs_of pairs.items)) }
{
    let mut meant = Vec::new(alloc);
    for pair in pairs {
        meant.push(pair_meant(alloc, pair)?)?;
    }
    Ok(meant)
}

impl Query {
    pub(crate) fn read(alloc: Global, query: &[u8]) -> Result<Query, AllocError>
        ensures { IfOk result (λ q. pairs_of q.pairs.items ≡ pairs_in query.now) }
    {
        let pairs = pairs_in(alloc, query)?;
        Ok(Query { pairs })
    }

    /// The query that is meant by this one.
    pub(crate) fn lenient(self, alloc: Global) -> Result<Query, AllocError>
        ensures { IfOk result (λ q. pairs_of q.pairs.items ≡ lenient (pairs_of self.pairs.items)) }
    {
        let pairs = lenient(alloc, self.pairs)?;
        Ok(Query { pairs })
    }

    /// Whether it asks that nothing be stored.
    pub(crate) fn is_dry_run(&self) -> bool
        ensures { result ≡ is_dry_run (pairs_of self.now.pairs.items) }
    {
        self.value(Parameter::DryRun) == "All"
    }

    /// Whether it asks that unknown fields be refused.
    pub(crate) fn is_strict(&self) -> bool
        ensures { result ≡ is_strict (pairs_of self.now.pairs.items) }
    {
        first_filled_at(&self.pairs, Parameter::FieldValidation.name()) == "Strict"
    }

    fn value(&self, parameter: Parameter) -> &str
        ensures { result.now ≡ value_of parameter (pairs_of self.now.pairs.items) }
    {
        first_at(&self.pairs, parameter.name())
    }

    pub(crate) fn absent(&self, parameter: Parameter) -> Result<(), ParamsFault>
        ensures { Returns (λ _. tt) result (absent_in parameter (pairs_of self.now.pairs.items)) }
    {
        if self.value(parameter).is_empty() {
            Ok(())
        } else {
            Err(ParamsFault::Bad(parameter))
        }
    }

    pub(crate) fn truth(&self, parameter: Parameter) -> Result<bool, ParamsFault>
        ensures { Returns (λ t. t) result (truth_in parameter (pairs_of self.now.pairs.items)) }
    {
        let text = self.value(parameter);
        if text.is_empty() {
            return Ok(false);
        }
        truth_of(text).ok_or(ParamsFault::Bad(parameter))
    }

    pub(crate) fn number(&self, parameter: Parameter, max: u64) -> Result<u64, ParamsFault>
        ensures { Returns (λ n. n) result (number_in parameter max (pairs_of self.now.pairs.items)) }
    {
        let text = self.value(parameter);
        if text.is_empty() {
            return Ok(0);
        }
        decimal_up_to(max, text).ok_or(ParamsFault::Bad(parameter))
    }

    pub(crate) fn version(&self) -> Result<Option<u64>, ParamsFault>
        ensures { Returns (λ v. v) result (version_in (pairs_of self.now.pairs.items)) }
    {
        let text = self.value(Parameter::ResourceVersion);
        if text.is_empty() {
            return Ok(None);
        }
        match version_of(text) {
            None => Err(ParamsFault::Bad(Parameter::ResourceVersion)),
            version => Ok(version),
        }
    }

    pub(crate) fn version_match(&self) -> Result<Option<VersionMatch>, ParamsFault>
        ensures { Returns (λ m. m) result (match_in (pairs_of self.now.pairs.items)) }
    {
        let text = self.value(Parameter::ResourceVersionMatch);
        if text.is_empty() {
            return Ok(None);
        }
        match match_of(text) {
            None => Err(ParamsFault::Bad(Parameter::ResourceVersionMatch)),
            version_match => Ok(version_match),
        }
    }

    pub(crate) fn token(&self, alloc: Global) -> Result<Option<Token>, ParamsFault>
        ensures { Returns (λ t. option_map token_view t) result (token_in (pairs_of self.now.pairs.items)) }
    {
        let text = self.value(Parameter::Continue);
        if text.is_empty() {
            return Ok(None);
        }
        let Some((revision, namespace, name)) = token_of(text) else {
            return Err(ParamsFault::Bad(Parameter::Continue));
        };
        let namespace = String::from_str(alloc, namespace)?;
        let name = String::from_str(alloc, name)?;
        Ok(Some(Token {
            revision,
            namespace,
            name,
        }))
    }

    pub(crate) fn selector(&self, alloc: Global) -> Result<Selector, ParamsFault>
        ensures { Returns (λ s. s) result (selector_in (pairs_of self.now.pairs.items)) }
    {
        match Selector::read(alloc, self.value(Parameter::LabelSelector)) {
            Ok(selector) => Ok(selector),
            Err(ReadError::Fault(_)) => Err(ParamsFault::Bad(Parameter::LabelSelector)),
            Err(ReadError::Memory) => Err(ParamsFault::Memory),
        }
    }

    /// What it asks of the names of objects; nothing where it can't be read.
    pub(crate) fn fields(&self, alloc: Global) -> Result<Selector, AllocError>
        ensures { IfOk result (λ s. s ≡ unwrap_or (fields_of (value_of FieldSelector (pairs_of self.now.pairs.items))) []) }
    {
        match Selector::read_fields(alloc, self.value(Parameter::FieldSelector))? {
            Some(selector) => Ok(selector),
            None => Ok(Selector::all(alloc)),
        }
    }

    pub(crate) fn strict(&self) -> Result<(), ParamsFault>
        ensures { Returns (λ _. tt) result (strict_in (pairs_of self.now.pairs.items)) }
    {
        match self.value(Parameter::FieldValidation) {
            "" | "Strict" => Ok(()),
            _ => Err(ParamsFault::Bad(Parameter::FieldValidation)),
        }
    }

    /// The manager's name, which has to be given.
    pub(crate) fn manager(&self, alloc: Global) -> Result<String, ParamsFault>
        ensures { Returns string_bytes result (manager_in (pairs_of self.now.pairs.items)) }
    {
        let name = self.value(Parameter::FieldManager);
        if !is_manager(name) {
            return Err(ParamsFault::Bad(Parameter::FieldManager));
        }
        Ok(String::from_str(alloc, name)?)
    }

    /// The manager's name, or `absent` where none is given.
    pub(crate) fn manager_or(&self, alloc: Global, absent: &str) -> Result<String, ParamsFault>
        ensures { Returns string_bytes result (manager_or absent.now (pairs_of self.now.pairs.items)) }
    {
        if self.value(Parameter::FieldManager).is_empty() {
            return Ok(String::from_str(alloc, absent)?);
        }
        self.manager(alloc)
    }
}
