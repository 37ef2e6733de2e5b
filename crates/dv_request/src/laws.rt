//! Laws of requests, each as a function that does nothing and ensures it.

ghost use Rattle.std.specs.Prelude.{◌≡◌, ◌≢◌, ◌≤◌, ◌<◌, ◌^◌, ℕ, List, [], Option, All, IfSome, Ok, length, true};
ghost use Rattle.dv_schema.specs.Schema.{ValueOf, spelling};
ghost use Rattle.dv_schema.specs.Fits.{Fits};
ghost use Rattle.dv_schema.specs.Reading.{read_all};
ghost use Rattle.dv_schema.specs.Decodes.{ReadsBack};
ghost use Rattle.dv_time.specs.Text.{last_second};
ghost use Rattle.dv_cms.specs.Types.{content_info};
ghost use Rattle.dv_request.specs.declared.request.Request.{Request};
ghost use Rattle.dv_request.specs.declared.service.Service.{Service};
ghost use Rattle.dv_request.specs.InfoView.{view_info};
ghost use Rattle.dv_request.specs.Made.{certificates_data, digest_data, is_good_nonce, message_data, request_from};
ghost use Rattle.dv_request.specs.Materials.{IsCertificate};
ghost use Rattle.dv_request.specs.PartViews.{view_path};
ghost use Rattle.dv_request.specs.Request.{request_data_type};
ghost use Rattle.dv_request.specs.RequestView.{view_request};
ghost use Rattle.dv_request.specs.TargetView.{view_target};
ghost use Rattle.dv_request.specs.Types.{data_of_request, dvcs_request, path_input, request_information, target_chain};

/// What was encoded of a request decodes to the same request.
pub fn requests_are_read_again()
    ensures { (x : Request) → read_all dvcs_request (record {
      levels = 30;
      place = 0;
      rest = spelling dvcs_request (view_request x);
    }) ≡ Ok (view_request x) }
{}

/// What was written of a part of a request is read as the same value, whatever follows.
pub fn parts_are_read_again()
    ensures information { ReadsBack request_information view_info }
    ensures target { ReadsBack target_chain view_target }
    ensures path { ReadsBack (path_input 160) view_path }
{}

/// The requests that are made have spellings, at the depth at which a message holds them, so they decode.
pub fn made_requests_have_spellings()
    ensures request { (service : Service) (matter : ValueOf data_of_request) (nonce : Option (List ℕ)) (at : Option ℕ)
        → Fits data_of_request 29 matter → length (spelling data_of_request matter) < 2 ^ 32
        → is_good_nonce nonce ≡ true → IfSome at (λ s. s ≤ last_second)
        → Fits dvcs_request 30 (request_from service matter nonce at) }
    ensures message { (octets : List ℕ) → length octets < 2 ^ 32
        → Fits data_of_request 29 (message_data octets) }
    ensures digest { (digest : List ℕ) → length digest ≡ 32
        → Fits data_of_request 29 (digest_data digest) }
    ensures certificates { (cs : List (List ℕ)) → cs ≢ [] → All IsCertificate cs
        → length (spelling data_of_request (certificates_data cs)) < 2 ^ 32
        → Fits data_of_request 29 (certificates_data cs) }
{}

/// A message that holds a request has a spelling: the request, as its content, is a well-formed value.
pub fn messages_have_spellings()
    ensures { (v : ValueOf dvcs_request) → Fits dvcs_request 30 v → length (spelling dvcs_request v) < 2 ^ 32
        → Fits content_info 32 (request_data_type, ((spelling dvcs_request v, tt), tt)) }
{}
