//! What holds of reads that are decoded from shares. The law is a contract; its call does nothing.

ghost use Rattle.share_source.specs.Laws.{ReadsAgree};

use crate::bytes::ShareBytes;

/// Two reads from one offset on, which were decoded from the same of the same shares by the same
/// leaves, bring the same bytes as far as both go, or two different hash inputs with one hash are
/// at hand.
pub fn reads_agree<B: ShareBytes>()
    ensures { ReadsAgree B.gives B.fails }
{}
