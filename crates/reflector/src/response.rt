//! What an item of a reply says to a client that asks a list or a watch. What it changes stands in `receiving`.

ghost use Rattle.std.specs.Prelude.{◌≡◌, IfOk, Option};
ghost use Rattle.wireclient.specs.Views.{reply_item_of};
ghost use Rattle.decoder.specs.Lines.{line_in};
ghost use Rattle.decoder.specs.Pages.{page_in};
ghost use Rattle.decoder.specs.Views.{wanted_of};
ghost use Rattle.decoder.specs.Pages as pages;
ghost use Rattle.reflector.specs.Client.{Cache};
ghost use Rattle.reflector.specs.declared.relist_reason.RelistReason.{RelistReason};
ghost use Rattle.reflector.specs.ReceivedViews.{head_said, list_relist_reason, response_of, watch_relist_reason};
ghost use Rattle.reflector.specs.Items.{line_or_unexpected, page_or_unexpected, said_of_list, said_of_watch};
ghost use Rattle.reflector.specs.RelistReasons.{body_reason, list_item_reason, status_reason, text_reason, watch_item_reason};

use crate::relist_reason::RelistReason;
use decoder::{DecodeFault, Line, Page, Wanted, read_line, read_page};
use std::alloc::{AllocError, Global};
use wireclient::Item;

/// What one item of the reply means to the question that was asked.
#[derive(Drop)]
pub(crate) enum Response {
    /// The reply is an answer (200).
    Begun,
    Page(Page),
    Line(Line),
    /// The watch has ended.
    Over,
    /// It doesn't fit the question, or breaks a rule.
    Unexpected(RelistReason),
}

fn page_response(alloc: Global, wanted: &Wanted, bytes: &[u8]) -> Result<Response, AllocError>
    ensures said { IfOk result (λ n. response_of n ≡ page_or_unexpected (page_in (wanted_of wanted.now) bytes.now)) }
    ensures relist_reason { (rules : pages.Page → Option RelistReason) → IfOk result (λ n. list_relist_reason rules n ≡ body_reason rules (page_in (wanted_of wanted.now) bytes.now)) }
{
    match read_page(alloc, wanted, bytes) {
        Ok(page) => Ok(Response::Page(page)),
        Err(DecodeFault::Malformed(rule)) => Ok(Response::Unexpected(RelistReason::Malformed(
            rule,
        ))),
        Err(DecodeFault::Memory) => Err(AllocError),
    }
}

fn line_response(alloc: Global, wanted: &Wanted, bytes: &[u8]) -> Result<Response, AllocError>
    ensures said { IfOk result (λ n. response_of n ≡ line_or_unexpected (line_in (wanted_of wanted.now) bytes.now)) }
    ensures relist_reason { (now : Option Cache) → IfOk result (λ n. watch_relist_reason now n ≡ text_reason now (line_in (wanted_of wanted.now) bytes.now)) }
{
    match read_line(alloc, wanted, bytes) {
        Ok(line) => Ok(Response::Line(line)),
        Err(DecodeFault::Malformed(rule)) => Ok(Response::Unexpected(RelistReason::Malformed(
            rule,
        ))),
        Err(DecodeFault::Memory) => Err(AllocError),
    }
}

fn head_response(status: u16) -> Response
    ensures said { response_of result ≡ head_said status }
    ensures list_item_reason { (rules : pages.Page → Option RelistReason) → list_relist_reason rules result ≡ status_reason status }
    ensures watch_item_reason { (now : Option Cache) → watch_relist_reason now result ≡ status_reason status }
{
    if status == 200 {
        Response::Begun
    } else {
        Response::Unexpected(RelistReason::Status(status))
    }
}

pub(crate) fn list_response(
    alloc: Global,
    wanted: &Wanted,
    item: &Item,
) -> Result<Response, AllocError>
    ensures said { IfOk result (λ n. response_of n ≡ said_of_list (wanted_of wanted.now) (reply_item_of item.now)) }
    ensures relist_reason { (rules : pages.Page → Option RelistReason) → IfOk result (λ n. list_relist_reason rules n ≡ list_item_reason (wanted_of wanted.now) rules (reply_item_of item.now)) }
{
    match item {
        Item::Head(status) => Ok(head_response(*status)),
        Item::Body(bytes) => page_response(alloc, wanted, bytes),
        Item::Line(_) => Ok(Response::Unexpected(RelistReason::NotAList)),
        Item::End => Ok(Response::Unexpected(RelistReason::NotAList)),
        Item::Malformed => Ok(Response::Unexpected(RelistReason::MalformedHttp)),
    }
}

pub(crate) fn watch_response(
    alloc: Global,
    wanted: &Wanted,
    item: &Item,
) -> Result<Response, AllocError>
    ensures said { IfOk result (λ n. response_of n ≡ said_of_watch (wanted_of wanted.now) (reply_item_of item.now)) }
    ensures relist_reason { (now : Option Cache) → IfOk result (λ n. watch_relist_reason now n ≡ watch_item_reason (wanted_of wanted.now) now (reply_item_of item.now)) }
{
    match item {
        Item::Head(status) => Ok(head_response(*status)),
        Item::Body(_) => Ok(Response::Unexpected(RelistReason::NotAWatch)),
        Item::Line(bytes) => line_response(alloc, wanted, bytes),
        Item::End => Ok(Response::Over),
        Item::Malformed => Ok(Response::Unexpected(RelistReason::MalformedHttp)),
    }
}
