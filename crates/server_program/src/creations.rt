//! Objects that are there before the port is listened on: a file has one as JSON on each line, each created as by a POST. What
//! a call comes to stands in `verbs`.
ghost use Rattle.std.specs.Prelude.{◌≡◌, ℕ, List, IfErr, IfOk, IfSome, OnErr, OnOk, Some, map, option_map, string_bytes};
ghost use Rattle.serde_json.specs.View.{view};
ghost use Rattle.api_request.specs.Views.{call_of};
ghost use Rattle.api_types.specs.TypesFile.{ServedShape};
ghost use Rattle.history.specs.History.{History};
ghost use Rattle.verbs.specs.Views.{ApiRepresents, types_of};
ghost use Rattle.server_program.specs.Creations.{Creates, CreatesAll, EndsAtLine, IsCreation, IsPathFor, IsRefused, lines_of, namespace_in, version_in};

use crate::fault::ServerFault;
use crate::object_fault::ObjectFault;
use api_request::{Body, CREATED, Call, Method};
use api_types::Types;
use json_values::{members_at, read_text, text_at};
use programs::unread_path;
use requests::MAX_BODY;
use serde_json::Value;
use std::alloc::{AllocError, Global};
use std::fs;
use std::rt::Files;
use verbs::Api;

/// The plural of the first type that has this group and version, and this kind.
fn plural_of<'a>(types: &'a Types, api_version: &str, kind: &str) -> Option<&'a str> {
    let (group, version) = api_version.split_once('/')?;
    for number in 0..u32::MAX {
        let served = types.get(number)?;
        if served.group.as_str() == group
            && served.version.as_str() == version
            && served.kind.as_str() == kind
        {
            return Some(served.plural.as_str());
        }
    }
    None
}

/// The `apiVersion` of an object, and the plural of the type that has it and its `kind`.
fn type_of<'a>(types: &'a Types, object: &'a Value) -> Option<(&'a str, &'a str)>
    ensures { IfSome result (λ names. version_in (view object.now) ≡ Some names.0.now) }
{
    let members = object.as_object()?;
    let api_version = text_at(members, "apiVersion")?;
    let plural = plural_of(types, api_version, text_at(members, "kind")?)?;
    Some((api_version, plural))
}

fn namespace_of(object: &Value) -> Option<&str>
    ensures { option_map (λ s. s.now) result ≡ namespace_in (view object.now) }
{
    text_at(members_at(object.as_object()?, "metadata")?, "namespace")
}

/// The path of a POST of an object: its type and its namespace are those that it names itself.
fn path_of(alloc: Global, types: &Types, object: &Value) -> Result<String, ObjectFault>
    ensures ok { IfOk result (λ path. IsPathFor (view object.now) (string_bytes path)) }
    ensures err { (types : List ServedShape) (m : History) (line : List ℕ) → IfErr result (IsRefused types m line) }
{
    let Some((api_version, plural)) = type_of(types, object) else {
        return Err(ObjectFault::NoType);
    };
    let Some(namespace) = namespace_of(object) else {
        return Err(ObjectFault::NoNamespace);
    };
    Ok(format!(in alloc; "/apis/{api_version}/namespaces/{namespace}/{plural}")?)
}

/// The call of a POST without parameters, of the object that stands on a line.
fn creation(alloc: Global, api: &Api, line: &str) -> Result<Call, ObjectFault>
    ensures ok { IfOk result (λ call. IsCreation (types_of api.now) line.now (call_of call)) }
    ensures err { (types : List ServedShape) (m : History) → IfErr result (IsRefused types m line.now) }
{
    if line.len() > MAX_BODY {
        return Err(ObjectFault::TooLarge);
    }
    let body = Body::read(alloc, line.as_bytes())?;
    let path = path_of(alloc, api.types(), body.value())?;
    let target = api.admit(Some(Method::Post), path.as_str(), None)?;
    Ok(Call {
        target,
        query: Vec::new(alloc),
        body: Some(body),
        agent: None,
        ticked: 0,
    })
}

/// The message of a Status.
fn message_of(alloc: Global, status: &str) -> Result<String, AllocError> {
    let status = read_text(alloc, status)?;
    let members = status.as_ref().and_then(Value::as_object);
    let message = members.and_then(|members| text_at(members, "message"));
    String::from_str(alloc, message.unwrap_or(""))
}

/// Makes a call whose answer has to be that of a creation.
fn make(alloc: Global, api: &mut Api, call: &Call) -> Result<(), ObjectFault>
    ensures ok { (types : List ServedShape) (m : History) (line : List ℕ) → ApiRepresents api.old types m → IsCreation types line (call_of call.now) → OnOk result (Creates types m line api.new) }
    ensures err { (types : List ServedShape) (m : History) (line : List ℕ) → ApiRepresents api.old types m → IsCreation types line (call_of call.now) → IfErr result (IsRefused types m line) }
    ensures unchanged { OnErr result (api.new ≡ api.old) }
{
    let plan = api.plan(call)?;
    if plan.answer.status != CREATED {
        let message = message_of(alloc, plan.answer.body.as_str())?;
        return Err(ObjectFault::Refused(plan.answer.status, message));
    }
    api.commit(&plan)?;
    Ok(())
}

/// Creates the object that stands on a line. On an error nothing is changed.
fn create(alloc: Global, api: &mut Api, line: &str) -> Result<(), ObjectFault>
    ensures ok { (types : List ServedShape) (m : History) → ApiRepresents api.old types m → OnOk result (Creates types m line.now api.new) }
    ensures err { (types : List ServedShape) (m : History) → ApiRepresents api.old types m → IfErr result (IsRefused types m line.now) }
    ensures unchanged { OnErr result (api.new ≡ api.old) }
{
    let call = creation(alloc, api, line)?;
    make(alloc, api, &call)
}

/// A line whose object isn't created.
#[derive(Debug, Drop)]
pub struct BadLine {
    /// Its number, from 1.
    pub number: usize,
    pub why: ObjectFault,
}

/// Creates the objects of lines in turn; an empty line has none. It ends at the first that isn't created.
pub fn create_all(alloc: Global, api: &mut Api, lines: &[&str]) -> Result<(), BadLine>
    ensures ok { (types : List ServedShape) (m : History) → ApiRepresents api.old types m → OnOk result (CreatesAll types m (map (λ l. l.now) lines.now) api.new) }
    ensures bad { (types : List ServedShape) (m : History) → ApiRepresents api.old types m → IfErr result (λ b. EndsAtLine types m (map (λ l. l.now) lines.now) b.number b.why api.new) }
{
    for (index, line) in lines.iter().enumerate() {
        if line.is_empty() {
            continue;
        }
        match create(alloc, api, line) {
            Ok(()) => {}
            Err(why) => {
                return Err(BadLine {
                    number: index + 1,
                    why,
                });
            }
        }
    }
    Ok(())
}

fn fault_of_line(alloc: Global, path: &str, bad: BadLine) -> ServerFault {
    if let ObjectFault::Failed(fault) = bad.why {
        return ServerFault::from(fault);
    }
    match String::from_str(alloc, path) {
        Ok(path) => ServerFault::Object(path, bad.number, bad.why),
        Err(error) => ServerFault::from(error),
    }
}

/// Creates the objects of the lines of a text; a fault names the file by its path, and the line.
fn create_in(alloc: Global, api: &mut Api, path: &str, text: &str) -> Result<(), ServerFault>
    ensures { (types : List ServedShape) (m : History) → ApiRepresents api.old types m → OnOk result (CreatesAll types m (lines_of text.now) api.new) }
{
    let lines: Vec<&str> = text.split('\n').collect(alloc)?;
    match create_all(alloc, api, &lines) {
        Ok(()) => Ok(()),
        Err(bad) => Err(fault_of_line(alloc, path, bad)),
    }
}

/// Creates the objects of a file.
pub(crate) fn create_from<R: Files + AllocGlobal>(
    rt: &R,
    api: &mut Api,
    path: &str,
) -> Result<(), ServerFault> {
    match fs::read_to_string(rt, path) {
        Ok(text) => create_in(rt.alloc(), api, path, text.as_str()),
        Err(error) => {
            let path = unread_path(rt.alloc(), path, &error)?;
            Err(ServerFault::ObjectsFile(path, error))
        }
    }
}
