//! What is spelled is read again.

ghost use Rattle.dv_schema.specs.Decodes.{ReadsBack};
ghost use Rattle.dv_cms.specs.Types.{signed_data, signer_info};
ghost use Rattle.dv_signed.specs.SignedView.{view_signed};
ghost use Rattle.dv_signed.specs.SignerView.{view_signer};

/// What is spelled of signed data and of a signer is read as the same value, whatever follows.
pub fn spelled_is_read_again()
    ensures signed { ReadsBack signed_data view_signed }
    ensures signer { ReadsBack signer_info view_signer }
{}
