//! What flushes send, and how replies are judged.

ghost use Rattle.std.specs.Prelude.{◌≡◌, ◌↔◌, ◌^◌, ◌<◌, ℕ, true, false, List, length, Some};
ghost use Rattle.fwd_out_text.specs.Payload.{PayloadForm};
ghost use Rattle.fwd_flush.specs.declared.judgement.Judged.{Judged};
ghost use Rattle.fwd_http.specs.Fields.{AreHeaderFields};
ghost use Rattle.fwd_out_http.specs.Head.{IsJudged};
ghost use Rattle.fwd_out_http.specs.Request.{IsUri, IsVisible};
ghost use Rattle.fwd_settings.specs.declared.settings_types.AllSettings.{AllSettings};
ghost use Rattle.fwd_settings.specs.declared.settings_types.HttpOptions.{HttpOptions};
ghost use Rattle.fwd_settings.specs.declared.settings_types.OutputSet.{OutputSet};
ghost use Rattle.fwd_settings.specs.declared.settings_types.OutputKind.TheVariants as output_kind;
ghost use Rattle.fwd_model.specs.Fact.{History, Route};
ghost use Rattle.fwd_model.specs.Settings.{output_at};
ghost use Rattle.fwd_model.specs.Payloads.{delivery};
ghost use Rattle.fwd_theorem_steps.specs.Payloads.{IsRequest, form_of, texts_of};

/// A flush to the standard output, a file or a tcp peer sends the texts of its events, in order, in the
/// format of the output, and wants no reply. A flush to an http server sends a request that is read back as a
/// POST with these texts as its body. It wants a reply, which is judged by its head.
pub fn payloads_have_all_events()
    ensures texts { (s : AllSettings) (h : History) (r : Route) (output : OutputSet) (form : PayloadForm) → output_at s r.output ≡ Some output → form_of output.kind ≡ Some form
        → ((delivery s h r).payload ≡ texts_of h r form) × ((delivery s h r).wanted ≡ false) }
    ensures requests { (s : AllSettings) (h : History) (r : Route) (output : OutputSet) (host : List ℕ) (port : ℕ) (uri : List ℕ) (form : PayloadForm) (options : HttpOptions)
        → output_at s r.output ≡ Some output → output.kind ≡ output_kind.Http host port uri form options
        → IsVisible host → IsUri uri → port < 2 ^ 16 → AreHeaderFields options.fields → length (texts_of h r form) < 2 ^ 64
        → IsRequest (delivery s h r).payload uri (texts_of h r form) }
    ensures replies { (s : AllSettings) (h : History) (r : Route) (output : OutputSet) (host : List ℕ) (port : ℕ) (uri : List ℕ) (form : PayloadForm) (options : HttpOptions)
        → output_at s r.output ≡ Some output → output.kind ≡ output_kind.Http host port uri form options
        → ((delivery s h r).wanted ≡ true) × ((reply : List ℕ) (judged : Judged) → ((delivery s h r).judged reply ≡ judged) ↔ IsJudged options.retried reply judged) }
{}
