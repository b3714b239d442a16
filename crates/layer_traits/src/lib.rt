//! The laws that the tower's machines and layers meet: what an edit is, and what a machine of lock
//! words provides. They also say what a layer of critical sections promises to the layer above it.
//!
//! A layer over another layer implements its trait by polling the lower one. Here are shared queues
//! over locks:
//!
//! ```text
//! fn poll(&mut self, m: &mut L::Machine, call: QueueCall<E::Request>, payload: &mut Payload)
//!     -> Option<BareQueueAnswer<E::Response>>
//! {
//!     self.lower.poll(m, section_of(call), payload)
//! }
//! ```
#![tactic(auto)]

mod block_box;
mod buffer_blocks;
mod buffer_edits;
mod buffer_layers;
mod buffer_views;
mod call_layers;
mod call_states;
mod calls;
mod conditions;
mod cv_layers;
mod edits;
mod grant_words;
mod homes;
mod ipc_layers;
mod laws;
mod layers;
mod lock_views;
mod locked;
mod locks;
mod moves;
mod own_threads;
mod owned;
mod owned_buffers;
mod owned_grant_words;
mod owned_layers;
mod owned_locks;
mod owned_words;
mod passes;
mod payloads;
mod qlock_layers;
mod queue_edits;
mod queues;
mod scheds;
mod sleep_layers;
mod sleeps;
mod steps;
mod stepwise;
mod threads;
mod uses_grant_words;
mod words;

pub use block_box::BlockBox;
pub use buffer_blocks::BufferBlock;
pub use buffer_edits::BareBufferEdit;
pub use buffer_edits::BareBufferReply;
pub use buffer_edits::BufferEdit;
pub use buffer_edits::BufferReply;
pub use buffer_layers::BufferLaw;
pub use buffer_layers::BufferLayer;
pub use buffer_views::BufferView;
pub use call_layers::CallLaw;
pub use call_layers::CallLayer;
pub use call_layers::message_of;
pub use call_states::CallState;
pub use call_states::Stage;
pub use call_states::no_calls;
pub use calls::Call;
pub use calls::Effect;
pub use calls::Place;
pub use calls::PollRun;
pub use calls::Reply;
pub use calls::ReplyKind;
pub use conditions::CvEdit;
pub use conditions::CvLeave;
pub use conditions::CvReply;
pub use conditions::Guarded;
pub use conditions::WholeGuarded;
pub use cv_layers::CvLaw;
pub use cv_layers::CvLayer;
pub use cv_layers::WaitingOf;
pub use edits::Edit;
pub use edits::Mark;
pub use edits::SplitEdit;
pub use grant_words::GrantWords;
pub use homes::kept_homes;
pub use ipc_layers::IpcLaw;
pub use ipc_layers::IpcLayer;
pub use laws::effects_are_run;
pub use laws::one_place;
pub use layers::Law;
pub use layers::Layer;
pub use lock_views::LockView;
pub use locked::Locked;
pub use locked::QLockCall;
pub use locked::QLockReply;
pub use locked::Side;
pub use locked::WakeWaiter;
pub use locked::WholeLocked;
pub use locks::LockCall;
pub use locks::LockLaw;
pub use locks::LockLayer;
pub use locks::SectionOf;
pub use moves::Moves;
pub use moves::WaitList;
pub use own_threads::OwnThreads;
pub use owned::Owned;
pub use owned_buffers::OwnedBuffers;
pub use owned_grant_words::OwnedGrantWords;
pub use owned_layers::BlockLaw;
pub use owned_layers::OwnedLayer;
pub use owned_layers::OwnedThreadLayer;
pub use owned_layers::SleeperLaw;
pub use owned_locks::OwnedLocks;
pub use owned_words::OwnedWords;
pub use passes::Pass;
pub use payloads::Ghost;
pub use payloads::MessageSlot;
pub use payloads::Payload;
pub use qlock_layers::LockStateOf;
pub use qlock_layers::LockingOf;
pub use qlock_layers::QLockLaw;
pub use qlock_layers::QLockLayer;
pub use queue_edits::BareQueueAnswer;
pub use queue_edits::QueueAnswer;
pub use queue_edits::QueueBlock;
pub use queue_edits::QueueEdit;
pub use queues::QueueCall;
pub use queues::QueueEvent;
pub use queues::QueueLaw;
pub use queues::QueueLayer;
pub use scheds::SchedAnswer;
pub use scheds::SchedCall;
pub use scheds::SchedLaw;
pub use scheds::SchedLayer;
pub use sleep_layers::BufferCall;
pub use sleep_layers::SleepLaw;
pub use sleep_layers::SleepLayer;
pub use sleep_layers::SleepStateOf;
pub use sleep_layers::SleepingOf;
pub use sleeps::Outcome;
pub use sleeps::Sleeps;
pub use sleeps::Wake;
pub use sleeps::WholeSleeps;
pub use steps::Reason;
pub use steps::Step;
pub use steps::steps_of;
pub use stepwise::Prompt;
pub use stepwise::Stepwise;
pub use threads::ThreadLaw;
pub use threads::ThreadLayer;
pub use uses_grant_words::UsesGrantWords;
pub use words::Words;
