//! What holds of the topics' queues of a folder, whatever its files: each function's contract is a law, and its body is empty.

ghost use Rattle.topic_core.specs.Laws.{TopicsStay, SavesStay, FindingsStay, LeftStays, NamesTell, OpeningsStay, ChangesStay};

/// Which topic of a state a topic's queue is, whether what its last save left stands, and what an opening finds of a topic, depend on
/// the topic's own files alone.
pub fn topics()
    ensures same { TopicsStay }
    ensures saved { SavesStay }
    ensures found { FindingsStay }
    ensures left { LeftStays }
    ensures names { NamesTell }
{}

/// A topic's own files stay where a queue of another name is opened, a channel's or a topic's, and where a call changes the files of one.
pub fn others()
    ensures openings { OpeningsStay }
    ensures changes { ChangesStay }
{}
