//! Refusals as JSON: the name, the code where it has one, and further parts.

ghost use Rattle.std.specs.Prelude.{◌≡◌, IfOk, OnOk, option_map};
ghost use Rattle.serde_json.specs.Data.{string, number, unsigned, put as with_member};
ghost use Rattle.serde_json.specs.View.{view, members_view};
ghost use Rattle.dd_script_write.specs.Answers.{count, bytes_tree, named, put_part, refusal_tree};
ghost use Rattle.dd_script_write.specs.Answers.{refused_drawing, refused_opening, refused_closing, refused_call, refused_client};

use crate::buffers::bytes_tree;
use dd_calls::{CloseRefusal, DupRefusal, OpenRefusal};
use dd_io::Bytes;
use dd_log::LogRefusal;
use serde_json::{Map, Value};
use std::alloc::{AllocError, Global};
use std::marker::Model;

/// DXGI_ERROR_ACCESS_LOST.
const ACCESS_LOST: &str = "887a0026";

/// DXGI_ERROR_INVALID_CALL.
const INVALID_CALL: &str = "887a0001";

/// DXGI_ERROR_WAIT_TIMEOUT.
const WAIT_TIMEOUT: &str = "887a0027";

/// DXGI_ERROR_MORE_DATA.
const MORE_DATA: &str = "887a0003";

/// E_ACCESSDENIED.
const ACCESS_DENIED: &str = "80070005";

/// DXGI_ERROR_NOT_CURRENTLY_AVAILABLE.
const NOT_AVAILABLE: &str = "887a0022";

/// DXGI_ERROR_SESSION_DISCONNECTED.
const SESSION_DISCONNECTED: &str = "887a0028";

/// E_INVALIDARG.
const INVALID_ARGUMENT: &str = "80070057";

/// What a refusal tells: its name, and of the other parts those that it has.
#[derive(Drop)]
pub(crate) struct Refusal<'r> {
    name: &'r str,
    /// The API's code, as eight hexadecimal digits.
    code: Option<&'r str>,
    /// The number, from 0, of the operation that was refused.
    op: Option<u32>,
    /// The whole buffer that the call was given.
    buffer: Option<&'r Bytes>,
    /// The number of bytes that the buffer has to have.
    required: Option<u32>,
}

impl<'r> Model for Refusal<'r> {
    ghost use Rattle.std.specs.Prelude.{option_map};
    ghost use Rattle.dd_script_write.specs.Answers as answers;

    ghost Value = { answers.Refusal };

    ghost view = { λ r. record {
      name = r.name.now;
      code = option_map (λ c. c.now) r.code;
      op = r.op;
      buffer = option_map (λ b. b.now) r.buffer;
      required = r.required;
    } };
}

impl<'r> Refusal<'r> {
    /// A refusal that has its name alone.
    fn named(name: &'r str) -> Refusal<'r>
        ensures { result ≡ named name.now }
    {
        Refusal {
            name,
            code: None,
            op: None,
            buffer: None,
            required: None,
        }
    }

    fn with_code(self, code: &'r str) -> Refusal<'r>
        ensures { result ≡ record self.entry { code = Some code.now } }
    {
        Refusal {
            code: Some(code),
            ..self
        }
    }

    fn with_op(self, op: u32) -> Refusal<'r>
        ensures { result ≡ record self.entry { op = Some op } }
    {
        Refusal {
            op: Some(op),
            ..self
        }
    }

    fn with_buffer(self, buffer: Option<&'r Bytes>) -> Refusal<'r>
        ensures { result ≡ record self.entry { buffer = option_map (λ b. b.now) buffer.entry } }
    {
        Refusal { buffer, ..self }
    }

    fn with_required(self, required: u32) -> Refusal<'r>
        ensures { result ≡ record self.entry { required = Some required } }
    {
        Refusal {
            required: Some(required),
            ..self
        }
    }

    /// Its parts as the members of an object.
    pub(crate) fn tree(self, alloc: Global) -> Result<Value, AllocError>
        ensures { IfOk result (λ v. view v ≡ refusal_tree self.entry) }
    {
        let Refusal {
            name,
            code,
            op,
            buffer,
            required,
        } = self;
        let mut map = Map::new(alloc);
        put_if(&mut map, alloc, "required", count_tree(required))?;
        serde_json::put(&mut map, alloc, "refused", text_tree(alloc, name)?)?;
        put_if(&mut map, alloc, "op", count_tree(op))?;
        let code = code_tree(alloc, code)?;
        put_if(&mut map, alloc, "code", code)?;
        let buffer = buffer_tree(alloc, buffer)?;
        put_if(&mut map, alloc, "buffer", buffer)?;
        Ok(Value::Object(map))
    }
}

/// A refused drawing.
pub(crate) fn refused_drawing<'r>(refusal: LogRefusal) -> Refusal<'r>
    ensures { result ≡ refused_drawing refusal }
{
    match refusal {
        LogRefusal::Ended => Refusal::named("Ended"),
        LogRefusal::Full => Refusal::named("Full"),
        LogRefusal::BadMode => Refusal::named("BadMode").with_code(INVALID_ARGUMENT),
        LogRefusal::BadRect { op } => {
            Refusal::named("BadRect")
                .with_code(INVALID_ARGUMENT)
                .with_op(op)
        }
    }
}

/// A refused opening.
pub(crate) fn refused_opening<'r>(refusal: OpenRefusal) -> Refusal<'r>
    ensures { result ≡ refused_opening refusal }
{
    match refusal {
        OpenRefusal::SessionDisconnected => {
            Refusal::named("SessionDisconnected").with_code(SESSION_DISCONNECTED)
        }
        OpenRefusal::AccessDenied => Refusal::named("AccessDenied").with_code(ACCESS_DENIED),
        OpenRefusal::AlreadyDuplicating => {
            Refusal::named("AlreadyDuplicating").with_code(INVALID_ARGUMENT)
        }
        OpenRefusal::NotAvailable => Refusal::named("NotAvailable").with_code(NOT_AVAILABLE),
        OpenRefusal::Full => Refusal::named("Full"),
    }
}

/// A refused closing.
pub(crate) fn refused_closing<'r>(refusal: CloseRefusal) -> Refusal<'r>
    ensures { result ≡ refused_closing refusal }
{
    match refusal {
        CloseRefusal::NoDuplicator => Refusal::named("NoDuplicator"),
        CloseRefusal::Ended => Refusal::named("Ended"),
        CloseRefusal::Full => Refusal::named("Full"),
    }
}

/// A refused call, with the whole buffer that it was given, if any.
pub(crate) fn refused_call<'r>(refusal: DupRefusal, buffer: Option<&'r Bytes>) -> Refusal<'r>
    ensures { result ≡ refused_call refusal (option_map (λ b. b.now) buffer.entry) }
{
    let refusal = match refusal {
        DupRefusal::AccessLost => Refusal::named("AccessLost").with_code(ACCESS_LOST),
        DupRefusal::InvalidCall => Refusal::named("InvalidCall").with_code(INVALID_CALL),
        DupRefusal::WaitTimeout => Refusal::named("WaitTimeout").with_code(WAIT_TIMEOUT),
        DupRefusal::MoreData { required } => {
            Refusal::named("MoreData")
                .with_code(MORE_DATA)
                .with_required(required)
        }
        DupRefusal::OutOfMemory => Refusal::named("OutOfMemory"),
    };
    refusal.with_buffer(buffer)
}

/// A call of a client that has no duplicator.
pub(crate) fn refused_client<'r>() -> Refusal<'r>
    ensures { result ≡ refused_client }
{
    Refusal::named("NoDuplicator")
}

/// Puts a member where there is one.
fn put_if(
    map: &mut Map<String, Value>,
    alloc: Global,
    key: &str,
    tree: Option<Value>,
) -> Result<(), AllocError>
    ensures { OnOk result (members_view map.new.entries
        ≡ put_part key.now (option_map view tree) (members_view map.old.entries)) }
{
    match tree {
        None => Ok(()),
        Some(tree) => serde_json::put(map, alloc, key, tree),
    }
}

fn text_tree(alloc: Global, text: &str) -> Result<Value, AllocError>
    ensures { IfOk result (λ v. view v ≡ string text.now) }
{
    Ok(Value::String(String::from_str(alloc, text)?))
}

fn count_tree(n: Option<u32>) -> Option<Value>
    ensures { option_map view result ≡ option_map count n }
{
    match n {
        None => None,
        Some(n) => Some(Value::from(n)),
    }
}

fn code_tree(alloc: Global, code: Option<&str>) -> Result<Option<Value>, AllocError>
    ensures { IfOk result
        (λ o. option_map view o ≡ option_map string (option_map (λ c. c.now) code.entry)) }
{
    match code {
        None => Ok(None),
        Some(code) => Ok(Some(text_tree(alloc, code)?)),
    }
}

fn buffer_tree(alloc: Global, buffer: Option<&Bytes>) -> Result<Option<Value>, AllocError>
    ensures { IfOk result
        (λ o. option_map view o
        ≡ option_map bytes_tree (option_map (λ b. b.now) buffer.entry)) }
{
    match buffer {
        None => Ok(None),
        Some(bytes) => Ok(Some(bytes_tree(alloc, bytes)?)),
    }
}
