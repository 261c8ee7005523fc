//! Readers of the columns of a row. Each returns `TableFault::Foreign` if the column holds no such
//! value, and `TableFault::NoMemory` if out of memory.

ghost use Rattle.std.specs.Prelude.{◌≡◌, ◌≢◌, ◌+◌, ◌<◌, ◌^◌, ℕ, length, IfOk, IsUtf8, MatchOption};
ghost use Rattle.sqlite.specs.declared.types.Value.TheVariants.{Text as TextValue, Null, Blob};
ghost use Rattle.sqlite.specs.Order.{column};
ghost use Rattle.usbnum_core.specs.Number.{IsId};
ghost use Rattle.registry_rows.specs.Rows.{flag, whole, IsSpan};
ghost use Rattle.usbnum_core.specs.declared.number.Span.{Span as SpanValue};

use registry_rules::{CanonicalForm, ReplyText};
use registry_schema::TableFault;
use sqlite::Row;
use sqlite::types::ValueRef;
use std::alloc::Global;
use usbnum_core::{Pid, Span, Text, TextRule, Vid};

/// Reads the text in the column, of the kind that the rule `R` accepts.
pub fn text_at<R: TextRule>(alloc: Global, row: &Row, at: usize) -> Result<Text<R>, TableFault>
    ensures ok { IfOk result (λ text. column row.now at ≡ TextValue text) }
    ensures foreign { result ≡ Err TableFault.Foreign → (text : _) → R.IsValid text → column row.now at ≢ TextValue text }
    ensures fault { result ≢ Err TableFault.Store }
{
    let Ok(ValueRef::Text(bytes)) = row.get_ref(at) else {
        return Err(TableFault::Foreign);
    };
    match Text::new(alloc, bytes) {
        Ok(Some(text)) => Ok(text),
        Ok(None) => Err(TableFault::Foreign),
        Err(_) => Err(TableFault::NoMemory),
    }
}

/// Reads such a text in the column, or `None` for NULL.
pub fn text_or_null_at<R: TextRule>(
    alloc: Global,
    row: &Row,
    at: usize,
) -> Result<Option<Text<R>>, TableFault>
    ensures ok { IfOk result (λ text. MatchOption text (column row.now at ≡ Null) (λ text. column row.now at ≡ TextValue text)) }
    ensures foreign { result ≡ Err TableFault.Foreign → at < length row.now → (column row.now at ≢ Null) × ((text : _) → R.IsValid text → column row.now at ≢ TextValue text) }
    ensures fault { result ≢ Err TableFault.Store }
{
    match row.get_ref(at) {
        Ok(ValueRef::Null) => Ok(None),
        Ok(ValueRef::Text(_)) => Ok(Some(text_at(alloc, row, at)?)),
        _ => Err(TableFault::Foreign),
    }
}

/// Reads the reply in the column.
pub fn reply_at(alloc: Global, row: &Row, at: usize) -> Result<ReplyText, TableFault>
    ensures ok { IfOk result (λ text. column row.now at ≡ TextValue text) }
    ensures foreign { result ≡ Err TableFault.Foreign → (text : _) → IsUtf8 text → column row.now at ≢ TextValue text }
    ensures fault { result ≢ Err TableFault.Store }
{
    let Ok(ValueRef::Text(bytes)) = row.get_ref(at) else {
        return Err(TableFault::Foreign);
    };
    let Ok(text) = std::str::from_utf8(bytes) else {
        return Err(TableFault::Foreign);
    };
    match String::from_str(alloc, text) {
        Ok(text) => Ok(ReplyText::new(text)),
        Err(_) => Err(TableFault::NoMemory),
    }
}

/// Reads the canonical form in the column.
pub fn canonical_form_at(alloc: Global, row: &Row, at: usize) -> Result<CanonicalForm, TableFault>
    ensures ok { IfOk result (λ bytes. column row.now at ≡ Blob bytes) }
    ensures foreign { result ≡ Err TableFault.Foreign → (bytes : _) → column row.now at ≢ Blob bytes }
    ensures fault { result ≢ Err TableFault.Store }
{
    let Ok(ValueRef::Blob(bytes)) = row.get_ref(at) else {
        return Err(TableFault::Foreign);
    };
    match Vec::from_slice(alloc, bytes) {
        Ok(bytes) => Ok(CanonicalForm::new(bytes)),
        Err(_) => Err(TableFault::NoMemory),
    }
}

/// Reads the flag in the column.
pub fn flag_at(row: &Row, at: usize) -> Result<bool, TableFault>
    ensures ok { IfOk result (λ b. column row.now at ≡ flag b) }
    ensures foreign { result ≡ Err TableFault.Foreign → (b : _) → column row.now at ≢ flag b }
    ensures fault { result ≢ Err TableFault.Store }
{
    match row.get_ref(at) {
        Ok(ValueRef::Int(0)) => Ok(false),
        Ok(ValueRef::Int(1)) => Ok(true),
        _ => Err(TableFault::Foreign),
    }
}

/// Reads the unsigned integer in the column.
pub fn number_at(row: &Row, at: usize) -> Result<u32, TableFault>
    ensures ok { IfOk result (λ n. column row.now at ≡ whole n) }
    ensures foreign { result ≡ Err TableFault.Foreign → (n : ℕ) → n < 2 ^ 32 → column row.now at ≢ whole n }
    ensures fault { result ≢ Err TableFault.Store }
{
    let Ok(ValueRef::Int(number)) = row.get_ref(at) else {
        return Err(TableFault::Foreign);
    };
    match u32::try_from(number) {
        Ok(number) => Ok(number),
        Err(_) => Err(TableFault::Foreign),
    }
}

/// Reads the vendor ID in the column.
pub fn vid_at(row: &Row, at: usize) -> Result<Vid, TableFault>
    ensures ok { IfOk result (λ n. column row.now at ≡ whole n) }
    ensures foreign { result ≡ Err TableFault.Foreign → (n : ℕ) → IsId n → column row.now at ≢ whole n }
    ensures fault { result ≢ Err TableFault.Store }
{
    let number = number_at(row, at)?;
    let Ok(number) = u16::try_from(number) else {
        return Err(TableFault::Foreign);
    };
    match Vid::new(number) {
        Some(number) => Ok(number),
        None => Err(TableFault::Foreign),
    }
}

/// Reads the product ID in the column.
pub fn pid_at(row: &Row, at: usize) -> Result<Pid, TableFault>
    ensures ok { IfOk result (λ n. column row.now at ≡ whole n) }
    ensures foreign { result ≡ Err TableFault.Foreign → (n : ℕ) → IsId n → column row.now at ≢ whole n }
    ensures fault { result ≢ Err TableFault.Store }
{
    let number = number_at(row, at)?;
    let Ok(number) = u16::try_from(number) else {
        return Err(TableFault::Foreign);
    };
    match Pid::new(number) {
        Some(number) => Ok(number),
        None => Err(TableFault::Foreign),
    }
}

/// Reads the product ID in the column, or `None` for NULL.
pub fn pid_or_null_at(row: &Row, at: usize) -> Result<Option<Pid>, TableFault>
    ensures ok { IfOk result (λ pid. MatchOption pid (column row.now at ≡ Null) (λ n. column row.now at ≡ whole n)) }
    ensures foreign { result ≡ Err TableFault.Foreign → at < length row.now → (column row.now at ≢ Null) × ((n : ℕ) → IsId n → column row.now at ≢ whole n) }
    ensures fault { result ≢ Err TableFault.Store }
{
    match row.get_ref(at) {
        Ok(ValueRef::Null) => Ok(None),
        Ok(ValueRef::Int(_)) => Ok(Some(pid_at(row, at)?)),
        _ => Err(TableFault::Foreign),
    }
}

/// Reads the span whose first number is in the column and whose last is in the next one.
pub fn span_at(row: &Row, at: usize) -> Result<Span, TableFault>
    requires { at < 1000 }
    ensures ok { IfOk result (λ span. (column row.now at ≡ whole span.first) × (column row.now (at + 1) ≡ whole span.last)) }
    ensures foreign { result ≡ Err TableFault.Foreign → (span : SpanValue) → IsSpan span → column row.now at ≡ whole span.first → column row.now (at + 1) ≢ whole span.last }
    ensures fault { result ≢ Err TableFault.Store }
{
    let first = pid_at(row, at)?;
    let last = pid_at(row, at + 1)?;
    match Span::new(first, last) {
        Some(span) => Ok(span),
        None => Err(TableFault::Foreign),
    }
}
