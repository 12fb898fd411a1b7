//! Laws of the connect records, which have two forms. Each is the contract of a function that does
//! nothing.

ghost use Rattle.std.specs.Prelude.{List, ℕ};
ghost use Rattle.zk_records.specs.Laws.{IsOneRequest, IsRequestOrRefused, HasOneRefusal, IsOneResponse};

/// A body is one connect request, in one form, or it is refused with one place and reason; never both.
pub fn one_connect_request()
    ensures one { (body : List ℕ) → IsOneRequest body }
    ensures read_or_refused { (body : List ℕ) → IsRequestOrRefused body }
    ensures one_refusal { (body : List ℕ) → HasOneRefusal body }
{}

/// A body is one connect response, in one form.
pub fn one_connect_response()
    ensures { (body : List ℕ) → IsOneResponse body }
{}
