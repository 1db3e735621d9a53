//! What the floors above call a message's type and its segments' tags. A tag is its three bytes as one number.

#![tactic(auto)]

ghost use Rattle.std.specs.Prelude.{◌≡◌};
ghost use Rattle.messages.specs.Types.{is_12b, is_period};

/// The type of a message, and the directory that it is of: D.04A, or D.12B where the name says so.
#[derive(Clone, Copy, PartialEq, Eq)]
pub enum MessageType {
    Skdupd,
    Tsdupd,
    Tsdupd12B,
}

/// Address.
pub const ADS: u32 = 0x414453;

/// Additional location information.
pub const ALS: u32 = 0x414c53;

/// Service details.
pub const ASD: u32 = 0x415344;

/// Country information.
pub const CNY: u32 = 0x434e59;

/// Contact information.
pub const CON: u32 = 0x434f4e;

/// Date and time information.
pub const DTI: u32 = 0x445449;

/// Application error information.
pub const ERI: u32 = 0x455249;

/// Frequency.
pub const FRQ: u32 = 0x465251;

/// Header information.
pub const HDR: u32 = 0x484452;

/// Interactive free text.
pub const IFT: u32 = 0x494654;

/// Language.
pub const LNG: u32 = 0x4c4e47;

/// Measurements.
pub const MES: u32 = 0x4d4553;

/// Message action details.
pub const MSD: u32 = 0x4d5344;

/// Name.
pub const NME: u32 = 0x4e4d45;

/// Origin and destination details.
pub const ODI: u32 = 0x4f4449;

/// Originator of request details.
pub const ORG: u32 = 0x4f5247;

/// Product information.
pub const PDT: u32 = 0x504454;

/// Period of operation.
pub const POP: u32 = 0x504f50;

/// Location and/or related time information.
pub const POR: u32 = 0x504f52;

/// Product identification.
pub const PRD: u32 = 0x505244;

/// Reference.
pub const RFR: u32 = 0x524652;

/// Relationship.
pub const RLS: u32 = 0x524c53;

/// Facility information.
pub const SER: u32 = 0x534552;

/// Time and certainty.
pub const TCE: u32 = 0x544345;

/// Tariff information.
pub const TFF: u32 = 0x544646;

/// Time zone information.
pub const TIZ: u32 = 0x54495a;

/// Traffic restriction details.
pub const TRF: u32 = 0x545246;

/// Interactive interchange header.
pub const UIB: u32 = 0x554942;

/// Interactive message header.
pub const UIH: u32 = 0x554948;

/// Interactive message trailer.
pub const UIT: u32 = 0x554954;

/// Interactive interchange trailer.
pub const UIZ: u32 = 0x55495a;

/// Whether a message is of directory D.12B.
pub fn is_12b(message: MessageType) -> bool
    ensures { result ≡ is_12b message }
{
    message == MessageType::Tsdupd12B
}

/// Whether a segment is a period that is read: POP in group 4 of SKDUPD.
pub fn is_period(message: MessageType, tag: u32, group: u32) -> bool
    ensures { result ≡ is_period message tag group }
{
    message == MessageType::Skdupd && tag == POP && group == 4
}
