//! The rows of the language: the request of each op.

ghost use Rattle.std.specs.Prelude.{◌≡◌, ◌≢◌, Ok, Err, IfOk, IfErr};
ghost use Rattle.serde_json.specs.View.{view};
ghost use Rattle.client_lang.specs.Lines.{data_in};
ghost use Rattle.client_lang.specs.Lines.{with_field, create_in, start_session_in, extend_session_in, end_session_in, authenticate_in, add_factor_in, update_factor_in, remove_factor_in, reset_pin_in, list_factors_in, mount_in, unmount_in, put_file_in, get_file_in, list_files_in, request_by};

use crate::fields::{account, intent, kind, label, name, seconds, secret, text, token};
use crate::line::{Field, LineFault};
use crate::schedule::schedule;
use account_machine::Request;
use ct_bytes::{Blob, Text};
use hex::FromHexError;
use serde_json::Value;
use std::alloc::Global;

// A field's value. One that is missing or outside its form is the line's fault.
macro_rules! field {
    ($value:expr, $field:ident) => {
        match $value {
            Some(value) => value,
            None => return Err(LineFault::BadField(Field::$field)),
        }
    };
}

// A copy of a text.
fn owned(alloc: Global, text: &str) -> Result<Text, LineFault>
    ensures value { IfOk result (λ copy. copy ≡ text.now) }
    ensures err { IfErr result (λ fault. fault ≡ LineFault.NoMemory) }
{
    match Text::from_str(alloc, text) {
        Ok(copy) => Ok(copy),
        Err(_) => Err(LineFault::NoMemory),
    }
}

fn create(alloc: Global, value: &Value) -> Result<Request, LineFault>
    ensures { result ≢ Err LineFault.NoMemory → result ≡ create_in (view value.now) }
{
    let account = field!(account(value), Account);
    Ok(Request::Create {
        account: owned(alloc, account)?,
    })
}

fn start_session(alloc: Global, value: &Value) -> Result<Request, LineFault>
    ensures { result ≢ Err LineFault.NoMemory → result ≡ start_session_in (view value.now) }
{
    let account = field!(account(value), Account);
    let intent = field!(intent(value), Intent);
    Ok(Request::StartSession {
        account: owned(alloc, account)?,
        intent,
    })
}

fn extend_session(alloc: Global, value: &Value) -> Result<Request, LineFault>
    ensures { result ≢ Err LineFault.NoMemory → result ≡ extend_session_in (view value.now) }
{
    let account = field!(account(value), Account);
    let token = field!(token(value), Token);
    let seconds = field!(seconds(value), Seconds);
    Ok(Request::ExtendSession {
        account: owned(alloc, account)?,
        token,
        seconds,
    })
}

fn end_session(alloc: Global, value: &Value) -> Result<Request, LineFault>
    ensures { result ≢ Err LineFault.NoMemory → result ≡ end_session_in (view value.now) }
{
    let account = field!(account(value), Account);
    let token = field!(token(value), Token);
    Ok(Request::EndSession {
        account: owned(alloc, account)?,
        token,
    })
}

fn authenticate(alloc: Global, value: &Value) -> Result<Request, LineFault>
    ensures { result ≢ Err LineFault.NoMemory → result ≡ authenticate_in (view value.now) }
{
    let account = field!(account(value), Account);
    let token = field!(token(value), Token);
    let label = field!(label(value), Label);
    let secret = field!(secret(value), Secret);
    Ok(Request::Authenticate {
        account: owned(alloc, account)?,
        token,
        label: owned(alloc, label)?,
        secret: owned(alloc, secret)?,
    })
}

fn update_factor(alloc: Global, value: &Value) -> Result<Request, LineFault>
    ensures { result ≢ Err LineFault.NoMemory → result ≡ update_factor_in (view value.now) }
{
    let account = field!(account(value), Account);
    let token = field!(token(value), Token);
    let label = field!(label(value), Label);
    let secret = field!(secret(value), Secret);
    Ok(Request::UpdateFactor {
        account: owned(alloc, account)?,
        token,
        label: owned(alloc, label)?,
        secret: owned(alloc, secret)?,
    })
}

fn remove_factor(alloc: Global, value: &Value) -> Result<Request, LineFault>
    ensures { result ≢ Err LineFault.NoMemory → result ≡ remove_factor_in (view value.now) }
{
    let account = field!(account(value), Account);
    let token = field!(token(value), Token);
    let label = field!(label(value), Label);
    Ok(Request::RemoveFactor {
        account: owned(alloc, account)?,
        token,
        label: owned(alloc, label)?,
    })
}

fn reset_pin(alloc: Global, value: &Value) -> Result<Request, LineFault>
    ensures { result ≢ Err LineFault.NoMemory → result ≡ reset_pin_in (view value.now) }
{
    let account = field!(account(value), Account);
    let token = field!(token(value), Token);
    let label = field!(label(value), Label);
    Ok(Request::ResetPin {
        account: owned(alloc, account)?,
        token,
        label: owned(alloc, label)?,
    })
}

fn list_factors(alloc: Global, value: &Value) -> Result<Request, LineFault>
    ensures { result ≢ Err LineFault.NoMemory → result ≡ list_factors_in (view value.now) }
{
    let account = field!(account(value), Account);
    Ok(Request::ListFactors {
        account: owned(alloc, account)?,
    })
}

fn mount(alloc: Global, value: &Value) -> Result<Request, LineFault>
    ensures { result ≢ Err LineFault.NoMemory → result ≡ mount_in (view value.now) }
{
    let account = field!(account(value), Account);
    let token = field!(token(value), Token);
    Ok(Request::Mount {
        account: owned(alloc, account)?,
        token,
    })
}

fn unmount(alloc: Global, value: &Value) -> Result<Request, LineFault>
    ensures { result ≢ Err LineFault.NoMemory → result ≡ unmount_in (view value.now) }
{
    let account = field!(account(value), Account);
    Ok(Request::Unmount {
        account: owned(alloc, account)?,
    })
}

fn get_file(alloc: Global, value: &Value) -> Result<Request, LineFault>
    ensures { result ≢ Err LineFault.NoMemory → result ≡ get_file_in (view value.now) }
{
    let account = field!(account(value), Account);
    let name = field!(name(value), Name);
    Ok(Request::GetFile {
        account: owned(alloc, account)?,
        name: owned(alloc, name)?,
    })
}

fn list_files(alloc: Global, value: &Value) -> Result<Request, LineFault>
    ensures { result ≢ Err LineFault.NoMemory → result ≡ list_files_in (view value.now) }
{
    let account = field!(account(value), Account);
    Ok(Request::ListFiles {
        account: owned(alloc, account)?,
    })
}

fn add_factor(alloc: Global, value: &Value) -> Result<Request, LineFault>
    ensures { result ≢ Err LineFault.NoMemory → result ≡ add_factor_in (view value.now) }
{
    let account = field!(account(value), Account);
    let token = field!(token(value), Token);
    let label = field!(label(value), Label);
    let kind = field!(kind(value), Kind);
    let secret = field!(secret(value), Secret);
    let schedule = field!(schedule(kind, value), Schedule);
    Ok(Request::AddFactor {
        account: owned(alloc, account)?,
        token,
        label: owned(alloc, label)?,
        kind,
        secret: owned(alloc, secret)?,
        schedule,
    })
}

// The bytes that a line's digits spell.
fn bytes(alloc: Global, value: &Value) -> Result<Blob, LineFault>
    ensures { result ≢ Err LineFault.NoMemory → result ≡ data_in (view value.now) }
{
    let text = field!(text(value, "data"), Data);
    let bytes = match hex::decode(alloc, text) {
        Ok(bytes) => bytes,
        Err(FromHexError::OutOfMemory) => return Err(LineFault::NoMemory),
        Err(_) => return Err(LineFault::BadField(Field::Data)),
    };
    match Blob::from_slice(alloc, &bytes) {
        Ok(bytes) => Ok(bytes),
        Err(_) => Err(LineFault::NoMemory),
    }
}

fn put_file(alloc: Global, value: &Value) -> Result<Request, LineFault>
    ensures { result ≢ Err LineFault.NoMemory → result ≡ put_file_in (view value.now) }
{
    let account = field!(account(value), Account);
    let name = field!(name(value), Name);
    let bytes = bytes(alloc, value)?;
    Ok(Request::PutFile {
        account: owned(alloc, account)?,
        name: owned(alloc, name)?,
        bytes,
    })
}

/// The request of an op.
pub fn request_by(alloc: Global, op: &str, value: &Value) -> Result<Request, LineFault>
    ensures { result ≢ Err LineFault.NoMemory → result ≡ request_by op.now (view value.now) }
{
    match op {
        "create" => create(alloc, value),
        "start_session" => start_session(alloc, value),
        "extend_session" => extend_session(alloc, value),
        "end_session" => end_session(alloc, value),
        "authenticate" => authenticate(alloc, value),
        "add_factor" => add_factor(alloc, value),
        "update_factor" => update_factor(alloc, value),
        "remove_factor" => remove_factor(alloc, value),
        "reset_pin" => reset_pin(alloc, value),
        "list_factors" => list_factors(alloc, value),
        "mount" => mount(alloc, value),
        "unmount" => unmount(alloc, value),
        "put_file" => put_file(alloc, value),
        "get_file" => get_file(alloc, value),
        "list_files" => list_files(alloc, value),
        _ => Err(LineFault::UnknownOp),
    }
}
