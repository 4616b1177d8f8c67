//! The texts of `--help`: the ending of each command, and what the options of several commands do.

// The endings of the help texts.
pub(crate) const MORE: &str = "Get the files:
  kubectl get clusterroles,clusterrolebindings -o json > cluster.json
  kubectl get roles,rolebindings --all-namespaces -o json > namespaced.json
or let the plugin get everything: kubectl rbacaudit export DIR

Then ask:
  rbacaudit can-i --as alice -n dev get pods cluster.json namespaced.json

rbacaudit COMMAND --help lists the options of a command.";

pub(crate) const CAN_I_MORE: &str = "The line of --why has five fields, joined by tabs:
  BINDING  the first binding that allows the request
  ROLE     the role that the binding names
  SOURCE   the role that contains the rule: ROLE, or a role that an aggregated ROLE gathers
  RULE     the number of the rule in SOURCE, from 1
  SUBJECT  the number of the subject in BINDING, from 1

With --why-not, a no is followed by a line for each grant that would allow the request but for one
thing. Before these five fields stand WHAT is missing and what the grant HAS instead:
  namespace    the RoleBinding is of the namespace HAS
  verb         the rule has the verbs HAS
  group        the rule has the API groups HAS
  subresource  the rule has the resources HAS: the same with another subresource, or with none
  name         the rule is limited to the object names HAS
  member       the binding is for the group HAS, and the user isn't known to be in it

Examples:
  rbacaudit can-i --as alice -n dev get pods cluster.json namespaced.json
  rbacaudit can-i --as alice -n dev --why-not delete pods cluster.json namespaced.json
  rbacaudit can-i --as alice --groups dev,ops -n dev --why get pods --subresource log *.json";

pub(crate) const WHO_CAN_MORE: &str =
    "Each line is a holder: a user or a group that a binding allows VERB TARGET. A rule limited to
object names counts only if TARGET has one of these names; with --any-name, it always counts. Of the
RoleBindings, only those of the namespace count; with --anywhere, those of all namespaces count, and
the binding of a line shows its namespace. The exit status is 0 even if there is no line; 2 is an
error.

With --why four fields follow the binding: ROLE, SOURCE, RULE and SUBJECT, as in can-i --help. RULE
is the binding's first rule that allows VERB TARGET, and SUBJECT its first subject that is the
holder.

--members adds lines for the users whom Group documents list in these groups: u:USER, then the other
fields of the group's line. A user who has a line gets no other; with --every, none with the same
binding.

--indirect also lists who can get to VERB TARGET by taking over others, step by step. A line then
has eleven fields:
  STEPS    the fewest steps from WHO to somebody who may VERB TARGET; 0 if WHO may
  WHO      u:USER, g:GROUP, a role that can be bound, or * for everything
  WHERE    where the role or * counts: a namespace, or * for the whole cluster; - for u: and g:
  TO       whom or what WHO takes over first: the WHO of a line above; - if STEPS is 0
  WHERE    where TO counts
  STEP     how WHO takes over TO, as in powers --help
and BINDING, ROLE, SOURCE, RULE and SUBJECT, as in paths --help, of the first grant that gives WHO
the step or, if STEPS is 0, VERB TARGET. To read a path, look up TO as the WHO of a line above, and
so on to a line whose STEPS is 0. --indirect excludes --anywhere, --any-name, --every, --members and
--why.

Examples:
  rbacaudit who-can -n dev delete secrets cluster.json namespaced.json
  rbacaudit who-can -n dev --why delete secrets cluster.json namespaced.json
  rbacaudit who-can --anywhere --every get secrets cluster.json namespaced.json
  rbacaudit who-can -n dev --any-name get secrets cluster.json namespaced.json
  rbacaudit who-can -n dev --members get secrets cluster.json namespaced.json groups.json
  rbacaudit who-can -n dev --indirect --steps run,exec get secrets cluster.json namespaced.json
  rbacaudit who-can get /metrics cluster.json";

pub(crate) const RULES_MORE: &str = "A line has ten fields, joined by tabs:
  BINDING    a binding that names WHO, or a group of WHO
  ROLE       the role that the binding names
  SOURCE     the role that contains the rule: ROLE, or a role that an aggregated ROLE gathers
  RULE       the number of the rule in SOURCE, from 1
  SUBJECT    the number of the first subject in BINDING that is WHO or a group of WHO, from 1
  VERBS      the verbs of the rule
  GROUPS     its API groups
  RESOURCES  its resources
  NAMES      its object names
  URLS       its URLs
The last five fields are lists, such as [get,list]. [] is the empty list; - in a list is the empty
word, such as the core API group; a comma in a word is \\x2c.

Take WHO from the first field of a line of who-can or matrix, and undo its escapes. If WHO is a
group, --groups and --group are refused. The exit status is 0 even if there is no line; 2 is an
error.

Examples:
  rbacaudit rules u:alice --groups dev cluster.json namespaced.json
  rbacaudit rules u:system:serviceaccount:shop:ci -n shop *.json";

pub(crate) const MATRIX_MORE: &str =
    "A line has seven fields, joined by tabs: who (u:USER or g:GROUP), namespace, verb,
API group, resource or URL, object name, and the first binding that grants the request; - is an
empty field. With --every, a request has a line for each binding that grants it, so you see what is
left if one of them is deleted.

A Universe document among FILEs lists the principals, namespaces, verbs, resources, object names and
URLs to ask about. A list that it leaves out is made from the files: the principals that bindings
name, and every service account; the resources of the API resource lists or, without such lists, of
the rules; the namespaces, verbs, object names and URLs that occur in the files.

If --limit leaves rows out, the last line is next and a TOKEN, joined by a tab: --after TOKEN lists
the rows that follow. Otherwise the last line is end. The exit status is 0; 2 is an error.

Examples:
  rbacaudit matrix cluster.json namespaced.json universe.json
  rbacaudit matrix --every cluster.json namespaced.json universe.json
  rbacaudit matrix --limit 1000 --after TOKEN cluster.json namespaced.json";

pub(crate) const UNIVERSE_MORE: &str =
    "matrix over the same files and this document lists the same rows as over the files alone. To
ask about less, delete entries from the document, and pass it to matrix as the last FILE. If a
Universe document among FILEs has a list, this list is printed; the other lists are made from the
files, as in matrix --help. Entries are sorted, and each is printed once. The exit status is 0; 2 is
an error.

Examples:
  rbacaudit universe cluster.json namespaced.json > universe.json
  rbacaudit matrix cluster.json namespaced.json universe.json";

pub(crate) const LINT_MORE: &str = "A line has five fields, joined by tabs; - is an empty field:
  CODE    L1 to L7
  NAME    the name of the code, as below
  OBJECT  the role, binding or other object, as KIND/NAME or KIND/NAMESPACE/NAME
  PLACE   the number of the rule or subject in OBJECT, from 1
  OTHER   a detail: a role, a rule's number, a verb, an account, a count

  L1  dangling-role              a binding refers to a role that does not exist
  L2  unused-role                no binding refers to the role, or to a role that aggregates it
  L3  redundant-rule             another rule of the role allows all that this rule does
  L4  escalation                 a rule lets its holders escalate or bind roles
  L5  account-without-namespace  a ClusterRoleBinding has a service account without a namespace
  L6  stale-aggregate            the rules written in an aggregated role are not those it gathers
  L7  replaced-object            a later document replaced earlier ones of this object

--skip-system leaves out findings about objects whose names begin with system:, and about the
cluster roles admin, edit, view and cluster-admin. The exit status is 1 if a finding is listed, else
0; 2 is an error.

Examples:
  rbacaudit lint cluster.json namespaced.json
  rbacaudit lint --only L1,L6 cluster.json namespaced.json
  rbacaudit lint --skip-system cluster.json namespaced.json";

pub(crate) const POWERS_MORE: &str = "A line has eight fields, joined by tabs:
  STEP     what WHO can do, as below
  WHO      u:USER or g:GROUP
  WHERE    the namespace where WHO can do it; * is the whole cluster
  BINDING  the first binding that grants the step
  ROLE     the role that the binding names
  SOURCE   the role that contains the rule: ROLE, or a role that an aggregated ROLE gathers
  RULE     the number of the rule in SOURCE, from 1
  SUBJECT  the number of the first subject in BINDING that is WHO, from 1

  impersonate   act as a user, a group or a service account
  token         create tokens of service accounts
  run           create Pods, or workloads that create them, under any service account
  exec          run commands in containers
  secrets       read Secrets, which can hold tokens of service accounts; also by changing them
  nodes         reach each container of a node through its kubelet
  bind          bind roles that grant more than WHO has
  escalate      write rules that grant more than WHO has
  certificates  approve client certificates, with which one can sign in as any user
  webhooks      read and change the objects that other users write, or change them by policies
  apiservices   answer requests in the place of the API server, and so tell it who asks
  bootstrap     sign in by bootstrap tokens, in groups that begin with system:bootstrappers
  volumes       make volumes, which may be directories of a node; leads to nobody in paths
  namespaces    change the labels that choose the pod security level; leads to nobody in paths

A rule that is limited to object names counts for each request that has a name: not for create of
an object, nor for deletecollection. What else a step needs isn't asked for: to impersonate a group,
a user to impersonate; to bind, the right to write bindings; to escalate, the right to write roles;
to exec, a pod. Whoever can run pods also reads the Secrets of the namespace, by mounting them.

The exit status is 0 even if there is no line; 2 is an error.

Examples:
  rbacaudit powers cluster.json namespaced.json
  rbacaudit powers *.json | grep '^secrets'";

pub(crate) const PATHS_MORE: &str = "A line has eleven fields, joined by tabs:
  STEPS    the fewest steps from WHO to TO
  TO       u:USER, g:GROUP, a role that can be bound, or * for everything
  WHERE    where the role or * counts: a namespace, or * for the whole cluster; - for u: and g:
  FROM     who or what takes over TO: WHO, or the TO of a line above
  WHERE    where FROM counts
  STEP     how FROM takes over TO, as in powers --help
  BINDING  the first binding that grants FROM this step
  ROLE     the role that the binding names
  SOURCE   the role that contains the rule: ROLE, or a role that an aggregated ROLE gathers
  RULE     the number of the rule in SOURCE, from 1
  SUBJECT  the number of the first subject in BINDING that is FROM or a group of it, from 1
If FROM is a role, BINDING and SUBJECT are -; if FROM is *, all five fields from BINDING on are -.
To read a path, look up FROM as the TO of a line above, and so on back to WHO. With --to, only the
lines of one path are listed, in order from WHO to TO.

WHO is as in rules --help. The exit status is 0 even if there is no line; with --to it is 1 if no
path leads to TO. 2 is an error.

Examples:
  rbacaudit paths --steps run,exec,impersonate u:alice cluster.json namespaced.json
  rbacaudit paths --to '*' u:alice cluster.json namespaced.json
  rbacaudit paths --to ClusterRole/edit -n dev u:alice cluster.json namespaced.json";

pub(crate) const DIFF_MORE: &str = "A line has eight fields, joined by tabs; - is an empty field:
  CHANGE     + for a permission that is gained, - for one that is lost
  WHO        u:USER, with any groups, or g:GROUP, for everybody in it
  NAMESPACE  * is every namespace, and requests without one
  VERB       * is any verb
  APIGROUP   * is any API group
  RESOURCE   * is any, */S any with the subresource S; or a URL: /x* is any that begins with /x
  NAME       * is any object name, and none
  BINDING    the first binding that has the permission, on the side that has it

The files of --after have the state after the change. Without --after, rbacaudit applies the change
to the objects of --before: it deletes those with the kind, namespace and name of an object of
--without, and then adds those of --with, which replace objects of the same kind, namespace and
name.

rbacaudit compares all requests that any user can make, in any namespace. Only impersonation can
give system:unauthenticated to a signed-in user, or other groups to system:anonymous: such users are
left out. If there is no + line, nobody may do anything new. Errors number the files in the order of
--before, --after, --without and --with. The exit status is 0 without a line and 1 with one; 2 is an
error.

Examples:
  rbacaudit diff --before monday/*.json --after friday/*.json
  rbacaudit diff --before prod/*.json --without old.json --with new.json";

pub(crate) const UNUSED_MORE: &str =
    "A permission of a binding is a rule of its role, with one word of each list of the rule: verb,
API group, resource and object name, or verb and URL. It is used if it allows a request of the logs.
For what isn't used, there is a line about the largest part that can go:
  binding     no permission of the binding was used
  subject     the binding was used, but by nobody whom this subject names
  rule        no permission of the rule was used through this binding
  permission  this permission of the rule wasn't used through this binding
All grants that allow a request are used. So whoever deletes all that is listed takes away nothing
that was asked for in the logs. Short logs lack the requests of rare jobs.

A line has ten fields, joined by tabs; - is a field that the line doesn't have:
  LINE      binding, subject, rule or permission
  BINDING   the binding
  ROLE      the role that the binding names
  SOURCE    the role that contains the rule: ROLE, or a role that an aggregated ROLE gathers
  RULE      the number of the rule in SOURCE, from 1
  SUBJECT   the number of the subject in BINDING, from 1
  WHO       of a subject, u:USER or g:GROUP; of a permission, its VERB
  GROUP     the API group
  RESOURCE  the resource, or a URL
  NAME      the object name; * is any name

A LOG has one Event or EventList of audit.k8s.io/v1 a line, as an API server writes it with
--audit-log-path; the level Metadata is enough. It may be of any size. Requests that the server
denied don't count. Errors number logs, and the lines of a log, from 1.

The exit status is 1 if a line is listed, else 0; 2 is an error.

Examples:
  rbacaudit unused --log audit.log cluster.json namespaced.json
  rbacaudit unused --log audit-1.log --log audit-2.log --skip-system *.json
  zcat audit*.gz | rbacaudit unused --log - cluster.json namespaced.json";

pub(crate) const LEAST_MORE: &str =
    "The output is one List, which kubectl apply -f takes. For each namespace where WHO did something,
it has a Role and a RoleBinding; for requests in the whole cluster and for URLs, a ClusterRole and a
ClusterRoleBinding. All of them have the same NAME. If WHO did nothing, the List is empty.

By these bindings alone, WHO may do what WHO did: the requests of the logs that WHO made and that the
roles and bindings in FILEs allow, by whichever binding. A rule allows any object name; with --names,
it allows only the names that WHO asked for, and requests without a name, such as list, have rules of
their own. A request isn't written if its own words would be wildcards in a rule, such as a resource
*, or if its URL isn't UTF-8. Short logs lack the requests of rare jobs.

WHO keeps what other bindings grant: rules lists them. For a service account,
u:system:serviceaccount:NS:NAME, the subject of the bindings is the ServiceAccount. Logs are as in
unused --help.

The exit status is 0; 2 is an error.

Examples:
  rbacaudit least --log audit.log u:alice cluster.json namespaced.json > least.json
  rbacaudit least --log audit.log --names --name ci u:system:serviceaccount:shop:ci *.json
  zcat audit*.gz | rbacaudit least --log - u:alice cluster.json namespaced.json";

// The help texts of options and words that several commands have, of --indirect, and of
// --skip-system.
pub(crate) const NAMESPACE: &str = "Namespace to check (default: default)";

pub(crate) const ALL: &str =
    "Check all namespaces at once: only ClusterRoleBindings grant this; overrides -n";

pub(crate) const WHY_NOT: &str =
    "After no, print why not: what grants lack that would allow it but for one thing";

pub(crate) const WHY: &str =
    "After yes, print why: BINDING, its ROLE, the SOURCE role, its RULE, the SUBJECT";

pub(crate) const INDIRECT: &str = "List also who can take over a holder; excludes --anywhere, \
    --any-name, --every, --members and --why";

pub(crate) const WHO_CAN_STEPS: &str =
    "With --indirect, only these steps count, e.g. run,exec (default: all of powers)";

pub(crate) const STEPS: &str = "Only these steps count, e.g. run,exec (default: all of powers)";

pub(crate) const TO_NAMESPACE: &str =
    "With --to, the namespace where a ClusterRole or * counts (default: the whole cluster)";

pub(crate) const UNUSED_SKIP_SYSTEM: &str =
    "Leave out bindings whose names begin with system:, which are Kubernetes' own";

pub(crate) const WHO: &str =
    "u:USER or g:GROUP, e.g. u:alice, u:system:serviceaccount:dev:ci or g:dev";

pub(crate) const LEAST_WHO: &str =
    "u:USER, e.g. u:alice or u:system:serviceaccount:dev:ci; a group is refused";

pub(crate) const RULES_NAMESPACE: &str =
    "Namespace whose RoleBindings count, with all ClusterRoleBindings (default: any)";

pub(crate) const RULES_ALL: &str =
    "Only what holds in all namespaces at once: ClusterRoleBindings; overrides -n";
