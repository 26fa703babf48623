//! Laws of the bytes of images: functions that do nothing, whose contract is the law.
ghost use Rattle.bim_format.specs.Fields.{SameBytesSameImage, RulesFitFields, NoResultIsLastType};

/// Two images whose counts and numbers fit their fields and that have the same bytes are the same
/// image.
pub fn same_bytes_same_image()
    ensures { SameBytesSameImage }
{}

/// In an image that keeps the rules, and whose counts fit their fields, each number fits its field.
pub fn rules_fit_fields()
    ensures { RulesFitFields }
{}

/// The number of a type is at most 65,534: in the place of a result 65,535 says that there is none.
pub fn no_result_is_last_type()
    ensures { NoResultIsLastType }
{}
