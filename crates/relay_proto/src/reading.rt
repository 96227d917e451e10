//! The reader of request texts. The checks have a fixed order, and the first that fails is the
//! result: the length of the text, JSON, its numbers, an object with `id`, then `do`, the counts
//! that the request requires or allows, and then its patch or its view.
ghost use Rattle.std.specs.Prelude.{◌≡◌, ◌≤◌, Ok, Err, IfOk, IfErr, IsErrOf, length};
ghost use Rattle.relay_proto.specs.declared.reading.TheConstants.{MAX_REQUEST};
ghost use Rattle.relay_proto.specs.Request.{request_of_text, request_of, edit_of, will_of};
ghost use Rattle.relay_proto.specs.Request.{light_will, resume_of, patch_in, view_in, refusal};
ghost use Rattle.relay_proto.specs.Request.{IsRefusedAs};

use crate::optional::optional_count_at;
use crate::refusal::{Refusal, RequestFault};
use crate::request::Request;
use crate::word::Word;
use relay_patch::{Patch, PatchFault, PatchLimits};
use relay_tree::{Budget, Scratch, Tree, TreeFault};
use relay_view::{View, ViewFault};
use std::alloc::Global;

/// The most bytes of the text of a request.
pub const MAX_REQUEST: u64 = 1_048_576;

/// The most that the patch of a will may weigh.
pub const MAX_WILL_WEIGHT: u64 = 65_536;

impl Request {
    /// Reads a request from its text, or returns the first fault. Members that a request does not
    /// need are ignored. `NoMemory` comes only for a text of at most [`MAX_REQUEST`] bytes. See
    /// `docs/PROTOCOL.md`, "Requests".
    ///
    /// ```
    /// let edit = r#"{"do": "edit", "id": 1, "patch": [{"op": "remove", "path": "/a"}]}"#;
    /// let request = Request::read(alloc, edit);
    /// assert!(rt; matches!(request, Ok(Request::Edit { id: 1, base: None, .. })));
    /// let Err(RequestFault::Refused(refusal)) = Request::read(alloc, r#"{"id": 2}"#) else {
    ///     return None;
    /// };
    /// assert!(rt; refusal == Refusal { fault: Word::Shape, id: Some(2), at: None });
    /// ```
    pub fn read(alloc: Global, text: &str) -> Result<Request, RequestFault>
        ensures ok { IfOk result (λ request. request_of_text text.now ≡ Ok request) }
        ensures refused { IfErr result (λ fault. IsRefusedAs fault (request_of_text text.now)) }
        ensures no_memory { IsErrOf result RequestFault.NoMemory → length text.now ≤ MAX_REQUEST }
    {
        let mut scratch = Scratch::new(alloc);
        Request::read_with(alloc, text, &mut scratch)
    }

    /// Reads a request as [`Request::read`] does, in memory that is kept from text to text
    /// ([`relay_tree::read_with`]).
    ///
    /// ```
    /// let mut scratch = Scratch::new(alloc);
    /// let request = Request::read_with(alloc, r#"{"do": "unwatch", "id": 1}"#, &mut scratch);
    /// assert!(rt; matches!(request, Ok(Request::Unwatch { id: 1 })));
    /// ```
    pub fn read_with(
        alloc: Global,
        text: &str,
        scratch: &mut Scratch,
    ) -> Result<Request, RequestFault>
        ensures ok { IfOk result (λ request. request_of_text text.now ≡ Ok request) }
        ensures refused { IfErr result (λ fault. IsRefusedAs fault (request_of_text text.now)) }
        ensures no_memory { IsErrOf result RequestFault.NoMemory → length text.now ≤ MAX_REQUEST }
    {
        if text.len() as u64 > MAX_REQUEST {
            return refuse(Word::TooLong, None, None);
        }
        let tree = match relay_tree::read_with(alloc, text, scratch) {
            Ok(tree) => tree,
            Err(TreeFault::NotJson) => return refuse(Word::NotJson, None, None),
            Err(TreeFault::Number) => return refuse(Word::Number, None, None),
            Err(TreeFault::NoMemory) => return Err(RequestFault::NoMemory),
        };
        of_tree(alloc, tree)
    }
}

fn of_tree(alloc: Global, tree: Tree) -> Result<Request, RequestFault>
    ensures ok { IfOk result (λ request. request_of tree ≡ Ok request) }
    ensures refused { IfErr result (λ fault. IsRefusedAs fault (request_of tree)) }
{
    let Some(id) = tree.count_at("id") else {
        return refuse(Word::Shape, None, None);
    };
    match tree.text_at("do") {
        Some("edit") => edit_of(alloc, id, tree),
        Some("will") => will_of(alloc, id, tree),
        Some("watch") => Ok(Request::Watch {
            id,
            view: view_of(alloc, id, &tree)?,
        }),
        Some("resume") => resume_of(alloc, id, &tree),
        Some("unwatch") => Ok(Request::Unwatch { id }),
        _ => refuse(Word::Shape, Some(id), None),
    }
}

fn edit_of(alloc: Global, id: u64, tree: Tree) -> Result<Request, RequestFault>
    ensures ok { IfOk result (λ request. edit_of id tree ≡ Ok request) }
    ensures refused { IfErr result (λ fault. IsRefusedAs fault (edit_of id tree)) }
{
    let Some(base) = optional_count_at(&tree, "base") else {
        return refuse(Word::Shape, Some(id), None);
    };
    Ok(Request::Edit {
        id,
        base,
        patch: patch_of(alloc, id, tree)?,
    })
}

fn will_of(alloc: Global, id: u64, tree: Tree) -> Result<Request, RequestFault>
    ensures ok { IfOk result (λ request. will_of id tree ≡ Ok request) }
    ensures refused { IfErr result (λ fault. IsRefusedAs fault (will_of id tree)) }
{
    if tree.member("base").is_some() {
        return refuse(Word::Shape, Some(id), None);
    }
    light_will(id, patch_of(alloc, id, tree)?)
}

fn light_will(id: u64, patch: Patch) -> Result<Request, RequestFault>
    ensures ok { IfOk result (λ request. light_will id patch ≡ Ok request) }
    ensures refused { IfErr result (λ fault. IsRefusedAs fault (light_will id patch)) }
{
    match patch.pay(Budget::Left(MAX_WILL_WEIGHT)) {
        Some(_) => Ok(Request::Will { id, patch }),
        None => refuse(Word::TooHeavy, Some(id), None),
    }
}

fn resume_of(alloc: Global, id: u64, tree: &Tree) -> Result<Request, RequestFault>
    ensures ok { IfOk result (λ request. resume_of id tree.now ≡ Ok request) }
    ensures refused { IfErr result (λ fault. IsRefusedAs fault (resume_of id tree.now)) }
{
    let Some(epoch) = tree.count_at("epoch") else {
        return refuse(Word::Shape, Some(id), None);
    };
    let Some(rev) = tree.count_at("rev") else {
        return refuse(Word::Shape, Some(id), None);
    };
    Ok(Request::Resume {
        id,
        epoch,
        rev,
        view: view_of(alloc, id, tree)?,
    })
}

fn patch_of(alloc: Global, id: u64, tree: Tree) -> Result<Patch, RequestFault>
    ensures ok { IfOk result (λ patch. patch_in id tree ≡ Ok patch) }
    ensures refused { IfErr result (λ fault. IsRefusedAs fault (patch_in id tree)) }
{
    let mut tree = tree;
    let Some(patch) = tree.take_member("patch") else {
        return refuse(Word::Shape, Some(id), None);
    };
    match Patch::from_owned(alloc, patch, PatchLimits::REQUEST) {
        Ok(patch) => Ok(patch),
        Err(PatchFault::TooManyOps) => refuse(Word::TooMany, Some(id), None),
        Err(PatchFault::Shape { at }) => refuse(Word::Shape, Some(id), at),
        Err(PatchFault::UnknownOp { at }) => refuse(Word::UnknownOp, Some(id), Some(at)),
        Err(PatchFault::Pointer { at }) => refuse(Word::Pointer, Some(id), Some(at)),
        Err(PatchFault::NoMemory) => Err(RequestFault::NoMemory),
    }
}

fn view_of(alloc: Global, id: u64, tree: &Tree) -> Result<View, RequestFault>
    ensures ok { IfOk result (λ view. view_in id tree.now ≡ Ok view) }
    ensures refused { IfErr result (λ fault. IsRefusedAs fault (view_in id tree.now)) }
{
    let Some(view) = tree.member("view") else {
        return refuse(Word::Shape, Some(id), None);
    };
    match View::read(alloc, view) {
        Ok(view) => Ok(view),
        Err(ViewFault::TooMany) => refuse(Word::TooMany, Some(id), None),
        Err(ViewFault::Shape { at }) => refuse(Word::Shape, Some(id), at),
        Err(ViewFault::Pointer { at }) => refuse(Word::Pointer, Some(id), Some(at)),
        Err(ViewFault::NoMemory) => Err(RequestFault::NoMemory),
    }
}

fn refuse<T>(fault: Word, id: Option<u64>, at: Option<u64>) -> Result<T, RequestFault>
    ensures { result ≡ Err (RequestFault.Refused (refusal fault id at)) }
{
    Err(RequestFault::Refused(Refusal { fault, id, at }))
}
