//! All parameters of a request: which of them its verb knows, and whether they go together. Single ones are read in
//! `query`.

ghost use Rattle.std.specs.Prelude.{◌≡◌, IfOk, option_map, string_bytes};
ghost use Rattle.params.specs.Lenient.{asking, fields_asked, is_dry_run, values_meant};
ghost use Rattle.params.specs.Query.{pairs_in};
ghost use Rattle.params.specs.Reading.{applied, deleted, got, is_any, listed, listed_or_watched, match_fits, params_of, together, token_fits, watched, written};
ghost use Rattle.params.specs.Strictness.{is_strict};
ghost use Rattle.params.specs.Texts.{ReadsBack, token_text};
ghost use Rattle.params.specs.Values.{no_values};
ghost use Rattle.params.specs.Views.{Returns, pairs_of, token_view, values_of};

use crate::fault::ParamsFault;
use crate::parameter::Parameter;
use crate::query::Query;
use names::LAST_VERSION;
use selector::Selector;
use std::alloc::{AllocError, Global};

/// The highest limit: a 64-bit signed integer, as a version is.
const MAX_LIMIT: u64 = LAST_VERSION;

/// The greatest number of seconds, that of a 32-bit signed integer.
const MAX_TIMEOUT: u64 = 2147483647;

/// What a request asks; a list may turn out to be a watch.
#[derive(Clone, Copy, Debug, PartialEq, Eq)]
pub enum Asked {
    Get,
    List,
    Post,
    Put,
    Apply,
    Delete,
}

/// How a list's revision is to match the version that is given ("Resource versions").
#[derive(Clone, Copy, Debug, PartialEq, Eq)]
pub enum VersionMatch {
    Exact,
    NotOlderThan,
}

/// Where a list goes on: the revision that it is of, and the last object that was listed.
#[derive(Debug, Drop)]
pub struct Token {
    pub revision: u64,
    pub namespace: String,
    pub name: String,
}

impl Token {
    /// The text that a list's answer gives: `<revision>.<namespace>.<name>`.
    pub fn text(&self, alloc: Global) -> Result<String, AllocError>
        ensures text { IfOk result (λ s. string_bytes s ≡ token_text (token_view self.now)) }
        ensures reads_back { IfOk result (λ _. ReadsBack (token_view self.now)) }
    {
        let mut text = self.revision.to_string(alloc)?;
        text.push('.')?;
        text.push_str(self.namespace.as_str())?;
        text.push('.')?;
        text.push_str(self.name.as_str())?;
        Ok(text)
    }
}

/// How a list is watched.
#[derive(Clone, Copy, Debug, PartialEq, Eq)]
pub struct Watch {
    pub has_bookmarks: bool,
    /// In seconds; 0 is none.
    pub timeout: u64,
}

/// What a request's parameters say; what its verb doesn't know is as in a query without parameters.
#[derive(Debug, Drop)]
pub struct Params {
    /// The manager's name; `unknown` where a POST or PUT gives none, empty for the verbs that have none.
    pub manager: String,
    /// Whether an apply takes over what others own.
    pub is_forced: bool,
    /// The `resourceVersion`.
    pub version: Option<u64>,
    /// The `resourceVersionMatch`.
    pub version_match: Option<VersionMatch>,
    /// 0 is none.
    pub limit: u64,
    /// The `continue` token of the page before.
    pub token: Option<Token>,
    pub selector: Selector,
    /// None for a list.
    pub watch: Option<Watch>,
}

/// No version is asked for, or any.
fn is_any(version: Option<u64>) -> bool
    ensures { result ≡ is_any version }
{
    match version {
        None => true,
        Some(version) => version == 0,
    }
}

/// Whether a match has the version that it needs: an exact one needs a version above 0.
fn match_fits(version_match: Option<VersionMatch>, version: Option<u64>) -> bool
    ensures { result ≡ match_fits version_match version }
{
    match version_match {
        None => true,
        Some(VersionMatch::Exact) => !is_any(version),
        Some(VersionMatch::NotOlderThan) => version.is_some(),
    }
}

/// Whether a list that goes on asks for no revision but its token's.
fn token_fits(
    token: &Option<Token>,
    version_match: Option<VersionMatch>,
    version: Option<u64>,
) -> bool
    ensures { result ≡ token_fits (option_map token_view token.now) version_match version }
{
    token.is_none() || version_match.is_none() && is_any(version)
}

fn got(alloc: Global, query: &Query) -> Result<Params, ParamsFault>
    ensures { Returns values_of result (got (pairs_of query.now.pairs.items)) }
{
    let version = query.version()?;
    Ok(Params {
        version,
        ..Params::none(alloc)
    })
}

/// The parameters of a list, if they go together.
fn together(params: Params) -> Result<Params, ParamsFault>
    ensures { Returns values_of result (together (values_of params)) }
{
    if !match_fits(params.version_match, params.version) {
        Err(ParamsFault::Bad(Parameter::ResourceVersionMatch))
    } else if !token_fits(&params.token, params.version_match, params.version) {
        Err(ParamsFault::Bad(Parameter::Continue))
    } else {
        Ok(params)
    }
}

fn listed(alloc: Global, query: &Query) -> Result<Params, ParamsFault>
    ensures { Returns values_of result (listed (pairs_of query.now.pairs.items)) }
{
    let token = query.token(alloc)?;
    query.absent(Parameter::FieldSelector)?;
    let selector = query.selector(alloc)?;
    let limit = query.number(Parameter::Limit, MAX_LIMIT)?;
    let version = query.version()?;
    let version_match = query.version_match()?;
    query.absent(Parameter::SendInitialEvents)?;
    together(Params {
        version,
        version_match,
        limit,
        token,
        selector,
        ..Params::none(alloc)
    })
}

fn watched(alloc: Global, query: &Query) -> Result<Params, ParamsFault>
    ensures { Returns values_of result (watched (pairs_of query.now.pairs.items)) }
{
    let has_bookmarks = query.truth(Parameter::AllowWatchBookmarks)?;
    query.absent(Parameter::FieldSelector)?;
    let selector = query.selector(alloc)?;
    let version = query.version()?;
    query.absent(Parameter::ResourceVersionMatch)?;
    query.absent(Parameter::SendInitialEvents)?;
    let timeout = query.number(Parameter::TimeoutSeconds, MAX_TIMEOUT)?;
    Ok(Params {
        version,
        selector,
        watch: Some(Watch {
            has_bookmarks,
            timeout,
        }),
        ..Params::none(alloc)
    })
}

fn listed_or_watched(alloc: Global, query: &Query) -> Result<Params, ParamsFault>
    ensures { Returns values_of result (listed_or_watched (pairs_of query.now.pairs.items)) }
{
    if query.truth(Parameter::Watch)? {
        watched(alloc, query)
    } else {
        listed(alloc, query)
    }
}

fn written(alloc: Global, query: &Query) -> Result<Params, ParamsFault>
    ensures { Returns values_of result (written (pairs_of query.now.pairs.items)) }
{
    query.absent(Parameter::DryRun)?;
    let manager = query.manager_or(alloc, "unknown")?;
    query.strict()?;
    Ok(Params {
        manager,
        ..Params::none(alloc)
    })
}

fn applied(alloc: Global, query: &Query) -> Result<Params, ParamsFault>
    ensures { Returns values_of result (applied (pairs_of query.now.pairs.items)) }
{
    query.absent(Parameter::DryRun)?;
    let manager = query.manager(alloc)?;
    query.strict()?;
    let is_forced = query.truth(Parameter::Force)?;
    Ok(Params {
        manager,
        is_forced,
        ..Params::none(alloc)
    })
}

fn deleted(alloc: Global, query: &Query) -> Result<Params, ParamsFault>
    ensures { Returns values_of result (deleted (pairs_of query.now.pairs.items)) }
{
    query.absent(Parameter::DryRun)?;
    Ok(Params::none(alloc))
}

/// The parameters that what is asked knows.
fn params_of(alloc: Global, asked: Asked, query: &Query) -> Result<Params, ParamsFault>
    ensures { Returns values_of result (params_of asked (pairs_of query.now.pairs.items)) }
{
    match asked {
        Asked::Get => got(alloc, query),
        Asked::List => listed_or_watched(alloc, query),
        Asked::Post | Asked::Put => written(alloc, query),
        Asked::Apply => applied(alloc, query),
        Asked::Delete => deleted(alloc, query),
    }
}

/// What a list or a watch asks of the names of objects.
fn fields_asked(alloc: Global, asked: Asked, query: &Query) -> Result<Selector, AllocError>
    ensures { IfOk result (λ s. s ≡ fields_asked asked (pairs_of query.now.pairs.items)) }
{
    match asked {
        Asked::List => query.fields(alloc),
        _ => Ok(Selector::all(alloc)),
    }
}

/// Whether a query asks that nothing be stored: its `dryRun` is `All` (Kubernetes documentation, "Kubernetes API Concepts",
/// "Dry-run").
pub fn is_dry_run(alloc: Global, query: &[u8]) -> Result<bool, AllocError>
    ensures { IfOk result (λ b. b ≡ is_dry_run (pairs_in query.now)) }
{
    let query = Query::read(alloc, query)?;
    Ok(query.is_dry_run())
}

/// Whether a query asks that unknown fields be refused: the first of its `fieldValidation`s that isn't empty is `Strict`
/// (Kubernetes documentation, "Kubernetes API Concepts", "Field validation"). A value that is none is refused by `Params::read`.
pub fn is_strict(alloc: Global, query: &[u8]) -> Result<bool, AllocError>
    ensures { IfOk result (λ b. b ≡ is_strict (pairs_in query.now)) }
{
    let query = Query::read(alloc, query)?;
    Ok(query.is_strict())
}

impl Params {
    /// What a query without parameters says.
    fn none(alloc: Global) -> Params
        ensures { values_of result ≡ no_values }
    {
        Params {
            manager: String::new(alloc),
            is_forced: false,
            version: None,
            version_match: None,
            limit: 0,
            token: None,
            selector: Selector::all(alloc),
            watch: None,
        }
    }

    /// Reads the parameters that what is asked knows; the others are ignored. A parameter that is given
    /// twice counts at its first place, and an empty value is absence.
    ///
    /// Refused with the first parameter at fault: of a list `watch` itself, then single ones in byte order of
    /// their names, then a match that the version doesn't fit, then a token beside a match or a version.
    pub fn read(alloc: Global, asked: Asked, query: &[u8]) -> Result<Params, ParamsFault>
        ensures { Returns values_of result (params_of asked (pairs_in query.now)) }
    {
        let query = Query::read(alloc, query)?;
        params_of(alloc, asked, &query)
    }

    /// The same, and objects have to meet this selector, too.
    fn asking(self, fields: Selector) -> Result<Params, AllocError>
        ensures { IfOk result (λ p. values_of p ≡ asking fields (values_of self)) }
    {
        Ok(Params {
            selector: self.selector.and(fields)?,
            ..self
        })
    }

    /// Reads them as `read` does of the query that is meant: `Ignore` and `Warn` of `fieldValidation` are `Strict`, `True` and
    /// `False` are the truth values, and `All` of `dryRun` is absence (`is_dry_run` tells it). Of a list or a watch
    /// `metadata.name=NAME` of `fieldSelector` is a requirement beside those of `labelSelector`.
    pub fn read_leniently(alloc: Global, asked: Asked, query: &[u8]) -> Result<Params, ParamsFault>
        ensures { Returns values_of result (values_meant asked (pairs_in query.now)) }
    {
        let query = Query::read(alloc, query)?;
        let fields = fields_asked(alloc, asked, &query)?;
        let params = params_of(alloc, asked, &query.lenient(alloc)?)?;
        Ok(params.asking(fields)?)
    }
}
