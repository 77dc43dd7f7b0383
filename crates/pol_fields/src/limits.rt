// How large a policy may be.

/// The most bytes of a policy: 64 MiB. A larger file is no policy, and no policy that is written is larger.
pub const MAX_POLICY_BYTES: usize = 64 << 20;
