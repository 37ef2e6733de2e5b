//! What was written is read again.

ghost use Rattle.dv_schema.specs.Decodes.{ReadsBack};
ghost use Rattle.dv_cms.specs.Types.{content_info};
ghost use Rattle.dv_cms.specs.Views.{view_content_info};

/// What was written of a value is read as the same value.
pub fn written_is_read_again()
    ensures { ReadsBack content_info view_content_info }
{}
