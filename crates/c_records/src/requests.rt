//! Requests: an object with `method`, `url`, `data`, `query_string`, `cookies`, `headers` and `env`.
ghost use Rattle.std.specs.Prelude.{◌≡◌, None, IfErr, IfOk, codes};
ghost use Rattle.c_base.specs.Faults.{refusal_of};
ghost use Rattle.c_records.specs.Members.{text_under};

use crate::members::{text_member, texts_member};
use c_base::fault::CallFault;
use sentry_base::protocol::Request;
use sentry_plain::ValueMap;
use std::alloc::Global;

/// The request that an object describes. Other members are passed over.
///
/// `Unknown`: a member is of another kind; `OutOfMemory`.
pub fn request_of(alloc: Global, members: &ValueMap) -> Result<Request, CallFault>
    ensures method { IfOk result (λ request. request.method ≡ text_under members.now (codes "method")) }
    ensures url { IfOk result (λ request. request.url ≡ text_under members.now (codes "url")) }
    ensures body { IfOk result (λ request. request.data_ ≡ text_under members.now (codes "data")) }
    ensures query { IfOk result (λ request. request.query_string ≡ text_under members.now (codes "query_string")) }
    ensures cookies { IfOk result (λ request. request.cookies ≡ text_under members.now (codes "cookies")) }
    ensures err { IfErr result (λ fault. refusal_of fault ≡ None) }
{
    let method = text_member(members, "method")?;
    let url = text_member(members, "url")?;
    let data = text_member(members, "data")?;
    let query_string = text_member(members, "query_string")?;
    let cookies = text_member(members, "cookies")?;
    let headers = texts_member(alloc, members, "headers")?;
    let env = texts_member(alloc, members, "env")?;
    Ok(Request {
        method,
        url,
        data_: data,
        query_string,
        cookies,
        headers,
        env,
    })
}
