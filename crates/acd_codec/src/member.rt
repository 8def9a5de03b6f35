//! Members of a request.

ghost use Rattle.std.specs.Prelude.{◌≡◌};
ghost use Rattle.acd_codec.specs.Members.{member_name};
ghost use Rattle.acd_codec.specs.ReplyTexts.{malformed_text};

/// The faulty part of an input: a member of a request, the request as JSON, or the moment before it.
#[derive(Clone, Copy, Debug, PartialEq, Eq)]
pub enum Member {
    /// The bytes are no JSON, or no object.
    Json,
    Requester,
    Invoke,
    Service,
    Device,
    Name,
    Ring,
    Wrap,
    Agent,
    Caller,
    Called,
    Call,
    To,
    Requested,
    Group,
    Groups,
    Priority,
    Monitor,
    Moment,
}

/// The status of the reply to a malformed input.
pub const MALFORMED_STATUS: u16 = 400;

impl Member {
    /// The name as it is written.
    pub fn name(self) -> &'static str
        ensures { result.now ≡ member_name self }
    {
        match self {
            Member::Json => "json",
            Member::Requester => "requester",
            Member::Invoke => "invoke",
            Member::Service => "service",
            Member::Device => "device",
            Member::Name => "name",
            Member::Ring => "ring",
            Member::Wrap => "wrap",
            Member::Agent => "agent",
            Member::Caller => "caller",
            Member::Called => "called",
            Member::Call => "call",
            Member::To => "to",
            Member::Requested => "requested",
            Member::Group => "group",
            Member::Groups => "groups",
            Member::Priority => "priority",
            Member::Monitor => "monitor",
            Member::Moment => "moment",
        }
    }

    /// The reply to an input where this is faulty (status [`MALFORMED_STATUS`]). It takes no memory.
    pub fn malformed_text(self) -> &'static str
        ensures { result.now ≡ malformed_text self }
    {
        match self {
            Member::Json => "{\"error\":{\"code\":30,\"member\":\"json\",\"name\":\"malformed\"}}",
            Member::Requester =>
                "{\"error\":{\"code\":30,\"member\":\"requester\",\"name\":\"malformed\"}}",
            Member::Invoke =>
                "{\"error\":{\"code\":30,\"member\":\"invoke\",\"name\":\"malformed\"}}",
            Member::Service =>
                "{\"error\":{\"code\":30,\"member\":\"service\",\"name\":\"malformed\"}}",
            Member::Device =>
                "{\"error\":{\"code\":30,\"member\":\"device\",\"name\":\"malformed\"}}",
            Member::Name => "{\"error\":{\"code\":30,\"member\":\"name\",\"name\":\"malformed\"}}",
            Member::Ring => "{\"error\":{\"code\":30,\"member\":\"ring\",\"name\":\"malformed\"}}",
            Member::Wrap => "{\"error\":{\"code\":30,\"member\":\"wrap\",\"name\":\"malformed\"}}",
            Member::Agent =>
                "{\"error\":{\"code\":30,\"member\":\"agent\",\"name\":\"malformed\"}}",
            Member::Caller =>
                "{\"error\":{\"code\":30,\"member\":\"caller\",\"name\":\"malformed\"}}",
            Member::Called =>
                "{\"error\":{\"code\":30,\"member\":\"called\",\"name\":\"malformed\"}}",
            Member::Call => "{\"error\":{\"code\":30,\"member\":\"call\",\"name\":\"malformed\"}}",
            Member::To => "{\"error\":{\"code\":30,\"member\":\"to\",\"name\":\"malformed\"}}",
            Member::Requested =>
                "{\"error\":{\"code\":30,\"member\":\"requested\",\"name\":\"malformed\"}}",
            Member::Group =>
                "{\"error\":{\"code\":30,\"member\":\"group\",\"name\":\"malformed\"}}",
            Member::Groups =>
                "{\"error\":{\"code\":30,\"member\":\"groups\",\"name\":\"malformed\"}}",
            Member::Priority =>
                "{\"error\":{\"code\":30,\"member\":\"priority\",\"name\":\"malformed\"}}",
            Member::Monitor =>
                "{\"error\":{\"code\":30,\"member\":\"monitor\",\"name\":\"malformed\"}}",
            Member::Moment =>
                "{\"error\":{\"code\":30,\"member\":\"moment\",\"name\":\"malformed\"}}",
        }
    }
}
