//! Theorems about requests and replies.

ghost use Rattle.std.specs.Prelude.{◌≡◌, ◌↔◌, ℕ, ◌^◌, ◌<◌, List, length};
ghost use Rattle.fwd_base.specs.declared.output_options.Form.{Form};
ghost use Rattle.fwd_flush.specs.declared.judgement.Judged.{Judged};
ghost use Rattle.fwd_http.specs.declared.fields.HeaderField.{HeaderField};
ghost use Rattle.fwd_http.specs.Fields.{AreHeaderFields};
ghost use Rattle.fwd_out_http.specs.Request.{IsVisible, IsUri, ReadsBack};
ghost use Rattle.fwd_out_http.specs.Reply.{http_judgement};
ghost use Rattle.fwd_out_http.specs.Head.{IsJudged};
ghost use Rattle.fwd_http.specs.declared.statuses.StatusRange.{StatusRange};

/// The head of a request is read back by the grammar of request heads in `httparse`: its method, its URI
/// and its fields, with the length of the body. The body follows it.
pub fn request_is_read_back()
    ensures { (host uri body : List ℕ) (port : ℕ) (form : Form) (fields : List HeaderField)
        → IsVisible host → IsUri uri → port < 2 ^ 16 → AreHeaderFields fields → length body < 2 ^ 64
        → ReadsBack host port uri form fields body }
{}

/// A reply is judged by its head, by the grammar of response heads in `httparse`, or by its length if it
/// has none, whatever further statuses are retried. Each reply has one judgement.
pub fn head_decides_judgement()
    ensures { (ranges : List StatusRange) (reply : List ℕ) (judged : Judged) → (http_judgement ranges reply ≡ judged) ↔ IsJudged ranges reply judged }
{}
