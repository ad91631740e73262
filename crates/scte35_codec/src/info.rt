//! What a splice section says.

/// The splice_command_type of splice_insert.
pub const SPLICE_INSERT: u8 = 5;

/// Times and durations have 33 bits: they are below this.
pub const TICKS: u64 = 1 << 33;

/// A splice_info_section of ANSI/SCTE 35, without the fields that its reader can count.
#[derive(Clone, Debug, PartialEq, Eq, Drop)]
pub struct SpliceInfo {
    /// pts_adjustment: the offset that is added to each pts_time of the section, in ticks of 90 kHz; of the
    /// sum the lowest 33 bits count. 33 bits.
    pub pts_adjustment: u64,
    /// cw_index: which control word decrypts the section. It says nothing in one that is not encrypted.
    pub cw_index: u8,
    /// tier: the authorization tier that the message is assigned to; 0xFFF assigns it to none. 12 bits.
    pub tier: u16,
    /// splice_command_type and the command.
    pub command: SpliceCommand,
    /// The splice descriptors, as they stand.
    pub descriptors: Vec<u8>,
    /// alignment_stuffing: what stands between the descriptors and CRC_32.
    pub stuffing: Vec<u8>,
    /// CRC_32 as it stands in the section. [`read`](crate::read) doesn't verify it,
    /// [`write`](crate::write) takes it from here, and [`write_with_crc`](crate::write_with_crc) computes it.
    pub crc: u32,
}

/// The command of a section.
#[derive(Clone, Debug, PartialEq, Eq, Drop)]
pub enum SpliceCommand {
    /// splice_insert, the command of type 5.
    Insert(SpliceInsert),
    /// A command of another splice_command_type, and its bytes.
    Other { command: u8, bytes: Vec<u8> },
}

/// splice_insert: a splice, or the cancellation of one.
#[derive(Clone, Debug, PartialEq, Eq, Drop)]
pub struct SpliceInsert {
    /// splice_event_id: the identifier of this splice event.
    pub event_id: u32,
    /// What the event is; `None` if splice_event_cancel_indicator cancels the event of this identifier.
    pub body: Option<InsertBody>,
}

/// What a splice_insert that is not cancelled says.
#[derive(Clone, Debug, PartialEq, Eq, Drop)]
pub struct InsertBody {
    /// out_of_network_indicator: whether the event is an opportunity to leave the network feed. Else it is one
    /// to return to it.
    pub out_of_network: bool,
    /// splice_immediate_flag: whether to splice at the nearest opportunity. Then no splice_time is given.
    pub immediate: bool,
    /// program_splice_flag: whether the whole program or single components are spliced, and when.
    pub target: SpliceTarget,
    /// break_duration, if duration_flag says that it is there.
    pub duration: Option<BreakDuration>,
    /// unique_program_id: the viewing event within the service.
    pub unique_program_id: u16,
    /// avail_num: which avail of the viewing event this is. 0 if it isn't used.
    pub avail_num: u8,
    /// avails_expected: how many avails the viewing event is expected to have. If it is 0, avail_num says
    /// nothing.
    pub avails_expected: u8,
}

/// What is spliced, and when.
#[derive(Clone, Debug, PartialEq, Eq, Drop)]
pub enum SpliceTarget {
    /// All components of the program, at this splice_time unless the splice is immediate.
    Program(Option<SpliceTime>),
    /// The elementary streams of these component_tags, each at its splice_time unless the splice is
    /// immediate: at most 255.
    Components(Vec<(u8, Option<SpliceTime>)>),
}

/// splice_time: when the splice is to be, if that is specified.
#[derive(Clone, Copy, Debug, PartialEq, Eq)]
pub struct SpliceTime {
    /// pts_time, in ticks of 90 kHz before pts_adjustment is added, if time_specified_flag is set. 33 bits.
    pub pts: Option<u64>,
}

/// break_duration: how long the break lasts.
#[derive(Clone, Copy, Debug, PartialEq, Eq)]
pub struct BreakDuration {
    /// auto_return: whether the splicer returns to the network feed when the duration is over. Else another
    /// splice_insert is to end the break, and the duration is for the case that it is lost.
    pub auto_return: bool,
    /// duration, in ticks of 90 kHz. 33 bits.
    pub ticks: u64,
}
