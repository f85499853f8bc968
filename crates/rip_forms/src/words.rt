/// The name of the attribute `type`.
pub(crate) const TYPE: [u16; 4] = [116, 121, 112, 101];

/// The name of the attribute `value`.
pub(crate) const VALUE: [u16; 5] = [118, 97, 108, 117, 101];

/// The name of the attribute `checked`.
pub(crate) const CHECKED: [u16; 7] = [99, 104, 101, 99, 107, 101, 100];

/// The name of the attribute `selected`.
pub(crate) const SELECTED: [u16; 8] = [115, 101, 108, 101, 99, 116, 101, 100];

/// The name of the attribute `disabled`.
pub(crate) const DISABLED: [u16; 8] = [100, 105, 115, 97, 98, 108, 101, 100];

/// The name of the attribute `maxlength`.
pub(crate) const MAXLENGTH: [u16; 9] = [109, 97, 120, 108, 101, 110, 103, 116, 104];
