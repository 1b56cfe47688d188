// What is asked of etcd's JSON gateway, and what its answers say. Bytes are base64 there, and numbers of 64 bits are texts; a
// field that is false, 0 or empty is left out.
ghost use Rattle.std.specs.Prelude.{◌≡◌, ◌≢◌, [], Option, option_map, option_and_then, string_bytes, codes, IfOk, Ok, Some, true};
ghost use Rattle.serde_json.specs.Find.{get, as_str, as_array};
ghost use Rattle.serde_json.specs.View.{view, items_view};
ghost use Rattle.ld_etcd.specs.Gateway.{hexadecimal, record_key, keys_end, encoded, range_request, make_request, text_in, items_in, IsPair};
ghost use Rattle.ld_etcd.specs.Transactions.{Ended};

use crate::Cause;
use crate::http::Response;
use base64::engine::general_purpose::STANDARD;
use serde_json::Value;
use std::alloc::Global;

/// The code of an answer to a call that ran out of some resource.
const EXHAUSTED: u64 = 8;

/// A number in 16 hexadecimal digits.
fn hexadecimal(alloc: Global, number: u64) -> Result<String, Cause>
    ensures { IfOk result (λ text. string_bytes text ≡ hexadecimal number) }
{
    Ok(format!(in alloc; "{number:016x}")?)
}

/// Bytes in base64.
#[tactic(auto, unfolding(crate::specs::Gateway::encoded))]
fn encoded(alloc: Global, bytes: &[u8]) -> Result<String, Cause>
    ensures { IfOk result (λ text. string_bytes text ≡ encoded bytes.now) }
{
    Ok(STANDARD.encode(alloc, bytes)?)
}

/// The key of the record of a number, in base64.
#[tactic(auto, unfolding(crate::specs::Gateway::record_key))]
pub(crate) fn key_of(alloc: Global, prefix: &str, number: u64) -> Result<String, Cause>
    ensures { IfOk result (λ key. string_bytes key ≡ encoded (record_key prefix.now number)) }
{
    let mut key = String::from_str(alloc, prefix)?;
    key.push_str("/")?;
    let number = hexadecimal(alloc, number)?;
    key.push_str(number.as_str())?;
    encoded(alloc, key.as_bytes())
}

/// What lies behind all keys of records, in base64.
#[tactic(auto, unfolding(crate::specs::Gateway::keys_end))]
fn end_of(alloc: Global, prefix: &str) -> Result<String, Cause>
    ensures { IfOk result (λ end. string_bytes end ≡ encoded (keys_end prefix.now)) }
{
    let mut end = String::from_str(alloc, prefix)?;
    end.push_str("0")?;
    encoded(alloc, end.as_bytes())
}

/// Asks for the records from a number on, 2,000 of them at most. It asks for no order: etcd answers in that of the keys, where
/// with an order it would first go through all keys up to the range's end.
pub(crate) fn range_text(alloc: Global, prefix: &str, from: u64) -> Result<String, Cause>
    ensures { IfOk result (λ text. string_bytes text ≡ range_request prefix.now from) }
{
    let from = key_of(alloc, prefix, from)?;
    let end = end_of(alloc, prefix)?;
    let mut text = String::from_str(alloc, "{\"key\":\"")?;
    text.push_str(from.as_str())?;
    text.push_str("\",\"range_end\":\"")?;
    text.push_str(end.as_str())?;
    text.push_str("\",\"limit\":2000}")?;
    Ok(text)
}

/// Asks for the making of a record, where its key was never made, and for what stands there otherwise.
pub(crate) fn make_text(
    alloc: Global,
    prefix: &str,
    number: u64,
    value: &[u8],
) -> Result<String, Cause>
    ensures { IfOk result (λ text. string_bytes text ≡ make_request prefix.now number value.now) }
{
    let key = key_of(alloc, prefix, number)?;
    let value = encoded(alloc, value)?;
    let mut text = String::from_str(
        alloc,
        "{\"compare\":[{\"target\":\"CREATE\",\"result\":\"EQUAL\",\"key\":\"",
    )?;
    text.push_str(key.as_str())?;
    text.push_str("\",\"create_revision\":\"0\"}],\"success\":[{\"request_put\":{\"key\":\"")?;
    text.push_str(key.as_str())?;
    text.push_str("\",\"value\":\"")?;
    text.push_str(value.as_str())?;
    text.push_str("\"}}],\"failure\":[{\"request_range\":{\"key\":\"")?;
    text.push_str(key.as_str())?;
    text.push_str("\"}}]}")?;
    Ok(text)
}

/// The JSON of a response that went well.
pub(crate) fn json_of(alloc: Global, response: &Response) -> Result<Value, Cause> {
    let value = match std::str::from_utf8(&response.body) {
        Ok(text) => Value::from_str(alloc, text).ok(),
        Err(_) => None,
    };
    if response.code != 200 {
        return Err(refusal(response.code, &value));
    }
    match value {
        Some(value) if value.get("header").and_then(Value::as_object).is_some() => Ok(value),
        _ => Err(Cause::NotEtcd),
    }
}

/// What a response with another status than 200 says.
fn refusal(code: u16, value: &Option<Value>) -> Cause {
    if let Some(value) = value {
        let is_exhausted = value.get("code").and_then(Value::as_u64) == Some(EXHAUSTED);
        if is_exhausted
            && text(value, "error").is_some_and(|error| error.contains("space exceeded"))
        {
            return Cause::Full;
        }
    }
    Cause::Status(code)
}

/// How a transaction ended.
#[derive(Drop)]
pub(crate) enum Transaction {
    /// The record was made.
    Made,
    /// It was there before, with this value.
    There(Vec<u8>),
}

/// How the transaction ended that makes the record of a number.
pub(crate) fn transaction_of(
    alloc: Global,
    answer: &Value,
    prefix: &str,
    number: u64,
) -> Result<Transaction, Cause>
    ensures { IfOk result (λ t. Ended prefix.now number (view answer.now) t) }
{
    let [response] = list(answer, "responses") else {
        return Err(Cause::NotEtcd);
    };
    if answer.get("succeeded").and_then(Value::as_bool) == Some(true) {
        return match response.get("response_put") {
            Some(_) => Ok(Transaction::Made),
            None => Err(Cause::NotEtcd),
        };
    }
    let Some(range) = response.get("response_range") else {
        return Err(Cause::NotEtcd);
    };
    match list(range, "kvs") {
        [pair] => Ok(Transaction::There(value_of(alloc, pair, prefix, number)?)),
        _ => Err(Cause::NotEtcd),
    }
}

/// The pairs of key and value of a range.
pub(crate) fn pairs_of(answer: &Value) -> &[Value]
    ensures { items_view result.now ≡ items_in (codes "kvs") (view answer.now) }
{
    list(answer, "kvs")
}

/// The value of a pair, whose key is to be the one of this number and to have been made once and never changed.
pub(crate) fn value_of(
    alloc: Global,
    pair: &Value,
    prefix: &str,
    number: u64,
) -> Result<Vec<u8>, Cause>
    ensures { IfOk result (λ value. IsPair prefix.now number (view pair.now) value.items) }
{
    let key = key_of(alloc, prefix, number)?;
    if !has_text(pair, "key", key.as_str()) || !has_text(pair, "version", "1") {
        return Err(Cause::NoRecord(number));
    }
    // An empty value is left out.
    let value = text(pair, "value").unwrap_or("");
    match STANDARD.decode(alloc, value.as_bytes()) {
        Ok(value) => Ok(value),
        Err(_) => Err(Cause::NoRecord(number)),
    }
}

/// A member that is a text.
fn text<'v>(value: &'v Value, name: &str) -> Option<&'v str>
    ensures { option_map (λ t. t.now) result ≡ text_in name.now (view value.now) }
{
    value.get(name).and_then(Value::as_str)
}

/// Whether a member is this text.
fn has_text(value: &Value, name: &str, wanted: &str) -> bool
    ensures { result ≡ true → text_in name.now (view value.now) ≡ Some wanted.now }
{
    match text(value, name) {
        Some(found) => found == wanted,
        None => false,
    }
}

/// The elements of a member that is an array; none where there is no such array.
fn list<'v>(value: &'v Value, name: &str) -> &'v [Value]
    ensures { items_view result.now ≡ items_in name.now (view value.now) }
{
    match value.get(name).and_then(Value::as_array) {
        Some(items) => items.as_slice(),
        None => &[],
    }
}
